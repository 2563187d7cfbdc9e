// The mirrors of a layout body, and where each data server starts. The loops borrow the table of starts, so that it
// is copied only once.
ghost use Rattle.std.specs.Prelude.{◌≡◌, ◌+◌, ◌≤◌, length};
ghost use Rattle.base.specs.Limits.{longest_body, most_mirrors, most_servers, most_starts};
ghost use Rattle.server.specs.Servers.{server_at};
ghost use Rattle.xdr.specs.Parsed.{many_at};
ghost use Rattle.layout.specs.Layouts.{mirror_at, mirrors_at};
ghost use Rattle.layout.specs.Starts.{parsed_of_starts, with_servers, with_mirrors};

use base::{Fault, MOST_SERVERS, MOST_STARTS, ROW_ENTRIES};
use xdr::Cursor;

// As many servers as the row has entries, which take their starts.
fn read_servers(s: &[u8], c: Cursor, row: &mut [u16]) -> Result<Cursor, Fault>
    requires { (length s.now ≤ longest_body) × (c.at ≤ length s.now) }
    ensures { parsed_of_starts result row.new
        ≡ with_servers 0 (many_at server_at (length row.old) s.now c.at) row.old }
{
    let mut d = c;
    for start in row.iter_mut() {
        let (_, e) = server::read_server(s, d)?;
        *start = d.at as u16;
        d = e;
    }
    Ok(d)
}

// A mirror after the first: its count, which is the row's, then its servers.
#[tactic(auto, using(xdr::proofs::Accepted::count_read), unfolding(crate::specs::Layouts::mirror_at, crate::specs::Starts::with_servers, xdr::specs::Parsed::then, base::specs::Answer::pick))]
fn read_mirror(s: &[u8], c: Cursor, row: &mut [u16]) -> Result<Cursor, Fault>
    requires { length s.now ≤ longest_body }
    ensures { parsed_of_starts result row.new
        ≡ with_servers 0 (mirror_at (length row.old) s.now c.at) row.old }
{
    let (count, d) = xdr::read_count(s, c, 1, MOST_SERVERS)?;
    if count as usize != row.len() {
        return Err(Fault::ServerCountDiffers);
    }
    read_servers(s, d, row)
}

// All mirrors, from the first server on. The start of a server is at the index mirror * 16 + stripe.
pub(crate) fn read_mirrors(
    s: &[u8],
    c: Cursor,
    mirrors: u32,
    servers: u32,
    starts: &mut [u16; MOST_STARTS],
) -> Result<Cursor, Fault>
    requires { (length s.now ≤ longest_body) × (c.at ≤ length s.now) × (mirrors ≤ most_mirrors)
        × (servers ≤ most_servers) }
    ensures { parsed_of_starts result starts.new
        ≡ with_mirrors 0 (mirrors_at mirrors servers s.now c.at) starts.old }
{
    let n = servers as usize;
    let mut d = read_servers(s, c, &mut starts[..n])?;
    for m in 1..mirrors as usize {
        let first = m * ROW_ENTRIES;
        d = read_mirror(s, d, &mut starts[first..first + n])?;
    }
    Ok(d)
}

// The filehandles of a data server.
ghost use Rattle.std.specs.Prelude.{◌≡◌};
ghost use Rattle.xdr.specs.Parsed.{end_of};
ghost use Rattle.xdr.specs.Answers.{parsed_of_end};
ghost use Rattle.server.specs.Servers.{handles_at};

use base::{Fault, LONGEST_FILEHANDLE};
use xdr::Cursor;

// Past n filehandles.
pub fn skip_handles(s: &[u8], c: Cursor, n: u32) -> Result<Cursor, Fault>
    ensures { parsed_of_end result ≡ end_of (handles_at n s.now c.at) }
{
    let mut d = c;
    for _ in 0..n {
        let (_, e) = xdr::read_opaque(s, d, 1, LONGEST_FILEHANDLE)?;
        d = e;
    }
    Ok(d)
}

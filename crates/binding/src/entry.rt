// A data server and the version entry chosen for it.
ghost use Rattle.std.specs.Prelude.{◌≡◌, ◌+◌, ◌≤◌, length};
ghost use Rattle.base.specs.Limits.{device_id_size, most_versions, stateid_size};
ghost use Rattle.base.specs.Results.{answered};
ghost use Rattle.binding.specs.Bindings.{entry_bound, matches, server_bound, stateid_fits};

use crate::choice::{choose, read_handle};
use base::{DEVICE_ID_SIZE, Refusal, STATEID_SIZE, VERSION_ENTRIES};
use device::Version;
use server::Server;
use xdr::{Cursor, Part};

// The entry's number and fields, and its filehandle. A tightly coupled entry has the offset of the stateid, another
// one user and group; what is not used is 0.
#[derive(Clone, Copy)]
pub struct Bound {
    pub entry: u32,
    pub version: Version,
    pub filehandle: Part,
    pub stateid: usize,
    pub user: Part,
    pub group: Part,
}

const NO_BYTES: Part = Part { start: 0, len: 0 };

// A loosely coupled version 4 takes the anonymous stateid, so the layout has 16 zero bytes there.
#[tactic(auto, unfolding(crate::specs::Bindings::stateid_fits))]
fn stateid_fits(s: &[u8], v: Version, stateid: usize) -> bool
    requires { stateid + stateid_size ≤ length s.now }
    ensures { result ≡ stateid_fits s.now v stateid }
{
    v.version != 4
        || v.tight
        || octets::same(&s[stateid..stateid + STATEID_SIZE], &[0u8; STATEID_SIZE])
}

// The server is the device's: its id, and a filehandle for each version entry.
#[tactic(auto, unfolding(crate::specs::Bindings::matches))]
fn server_matches(s: &[u8], server: Server, count: u32, id: &[u8; DEVICE_ID_SIZE]) -> bool
    requires { server.device + device_id_size ≤ length s.now }
    ensures { result ≡ matches s.now server count id.now }
{
    let start = server.device;
    let end = start + DEVICE_ID_SIZE;
    octets::same(&s[start..end], id) && server.handles == count
}

#[tactic(auto, unfolding(crate::specs::Bindings::entry_bound, crate::specs::Bindings::bound, crate::specs::Bindings::require, crate::specs::Bindings::value_of, base::specs::Answer::given, base::specs::Answer::pick))]
fn bind_entry(s: &[u8], server: Server, v: Version, i: u32) -> Result<Bound, Refusal>
    requires { server.stateid + stateid_size ≤ length s.now }
    ensures { answered result ≡ entry_bound s.now server v i }
{
    if !stateid_fits(s, v, server.stateid) {
        return Err(Refusal::StateidNotZero);
    }
    let first = Cursor {
        at: server.first_handle,
    };
    let (filehandle, _) = read_handle(s, first, i)?;
    if v.tight {
        return Ok(Bound {
            entry: i,
            version: v,
            filehandle,
            stateid: server.stateid,
            user: NO_BYTES,
            group: NO_BYTES,
        });
    }
    Ok(Bound {
        entry: i,
        version: v,
        filehandle,
        stateid: 0,
        user: server.user,
        group: server.group,
    })
}

// The server that starts at an offset, against the first count of the version entries.
#[tactic(auto, using(server::proofs::ServerLaws::server_read, crate::proofs::BindingLaws::chosen_below), unfolding(crate::specs::Bindings::server_bound, crate::specs::Bindings::require, crate::specs::Bindings::value_of, base::specs::Answer::given, base::specs::Answer::pick))]
pub(crate) fn bind_server(
    s: &[u8],
    start: usize,
    versions: &[Version; VERSION_ENTRIES],
    count: u32,
    id: &[u8; DEVICE_ID_SIZE],
    set: u32,
) -> Result<Bound, Refusal>
    requires { count ≤ most_versions }
    ensures { answered result ≡ server_bound s.now start versions.now count id.now set }
{
    let (server, _) = server::read_server(s, Cursor { at: start })?;
    if !server_matches(s, server, count, id) {
        return Err(Refusal::BindingDiffers);
    }
    let i = choose(set, &versions[..count as usize])?;
    let v = versions[i as usize];
    bind_entry(s, server, v, i)
}

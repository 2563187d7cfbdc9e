// What a data server begins with: device id, efficiency, stateid and the number of filehandles.
ghost use Rattle.std.specs.Prelude.{◌≡◌};
ghost use Rattle.xdr.specs.Answers.{parsed_of};
ghost use Rattle.server.specs.Servers.{server_head_at};

use base::{DEVICE_ID_SIZE, MOST_FILEHANDLES, STATEID_SIZE};
use xdr::{Cursor, Read};

// Device id and stateid by their offsets.
#[derive(Clone, Copy)]
pub struct ServerHead {
    pub device: usize,
    pub efficiency: u32,
    pub stateid: usize,
    pub handles: u32,
}

#[tactic(auto, unfolding(crate::specs::Servers::server_head_at, xdr::specs::Parsed::then))]
pub(crate) fn read_server_head(s: &[u8], c: Cursor) -> Read<ServerHead>
    ensures { parsed_of result ≡ server_head_at s.now c.at }
{
    let (device, c1) = xdr::read_bytes(s, c, DEVICE_ID_SIZE)?;
    let (efficiency, c2) = xdr::read_u32(s, c1)?;
    let (stateid, c3) = xdr::read_bytes(s, c2, STATEID_SIZE)?;
    let (handles, c4) = xdr::read_count(s, c3, 1, MOST_FILEHANDLES)?;
    let head = ServerHead {
        device: device.start,
        efficiency,
        stateid: stateid.start,
        handles,
    };
    Ok((head, c4))
}

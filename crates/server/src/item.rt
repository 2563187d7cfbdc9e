// A data server as one item.
ghost use Rattle.std.specs.Prelude.{◌≡◌};
ghost use Rattle.xdr.specs.Answers.{parsed_of};
ghost use Rattle.server.specs.Servers.{server_at};

use crate::handles::skip_handles;
use crate::head::read_server_head;
use base::LONGEST_NAME;
use xdr::{Cursor, Part, Read};

// Device id, stateid and the first filehandle's length by their offsets.
#[derive(Clone, Copy)]
pub struct Server {
    pub device: usize,
    pub efficiency: u32,
    pub stateid: usize,
    pub handles: u32,
    pub first_handle: usize,
    pub user: Part,
    pub group: Part,
}

#[tactic(auto, using(xdr::proofs::EndLaws::end_was_read, xdr::proofs::EndLaws::end_was_refused), unfolding(crate::specs::Servers::server_at, xdr::specs::Parsed::then))]
pub fn read_server(s: &[u8], c: Cursor) -> Read<Server>
    ensures { parsed_of result ≡ server_at s.now c.at }
{
    let (head, c1) = read_server_head(s, c)?;
    let c2 = skip_handles(s, c1, head.handles)?;
    let (user, c3) = xdr::read_opaque(s, c2, 0, LONGEST_NAME)?;
    let (group, c4) = xdr::read_opaque(s, c3, 0, LONGEST_NAME)?;
    let server = Server {
        device: head.device,
        efficiency: head.efficiency,
        stateid: head.stateid,
        handles: head.handles,
        first_handle: c1.at,
        user,
        group,
    };
    Ok((server, c4))
}

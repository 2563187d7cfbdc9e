// Layout updates with the offsets of their bytes: `netaddr4` and `ff_layoutupdate4`.
ghost use Rattle.std.specs.Prelude.{◌≡◌};
ghost use Rattle.xdr.specs.Answers.{parsed_of};
ghost use Rattle.statistics.specs.Statistics.{netaddr_at, update_at};

use crate::latencies::read_latency;
use crate::times::read_time;
use crate::{Latency, Time};
use base::{LONGEST_ADDRESS, LONGEST_FILEHANDLE, LONGEST_NETID};
use xdr::{Cursor, Part, Read};

// A `Netaddr` whose bytes are still in the body.
#[derive(Clone, Copy)]
pub struct NetaddrItem {
    pub netid: Part,
    pub text: Part,
}

// A `LayoutUpdate` whose bytes are still in the body.
#[derive(Clone, Copy)]
pub struct UpdateItem {
    pub address: NetaddrItem,
    pub filehandle: Part,
    pub read: Latency,
    pub write: Latency,
    pub duration: Time,
    pub local: bool,
}

#[tactic(auto, unfolding(crate::specs::Statistics::netaddr_at, xdr::specs::Parsed::then))]
pub(crate) fn read_netaddr(s: &[u8], c: Cursor) -> Read<NetaddrItem>
    ensures { parsed_of result ≡ netaddr_at s.now c.at }
{
    let (netid, c1) = xdr::read_opaque(s, c, 1, LONGEST_NETID)?;
    let (text, c2) = xdr::read_opaque(s, c1, 1, LONGEST_ADDRESS)?;
    Ok((NetaddrItem { netid, text }, c2))
}

#[tactic(auto, unfolding(crate::specs::Statistics::update_at, xdr::specs::Parsed::then))]
pub(crate) fn read_update(s: &[u8], c: Cursor) -> Read<UpdateItem>
    ensures { parsed_of result ≡ update_at s.now c.at }
{
    let (address, c1) = read_netaddr(s, c)?;
    let (filehandle, c2) = xdr::read_opaque(s, c1, 1, LONGEST_FILEHANDLE)?;
    let (read, c3) = read_latency(s, c2)?;
    let (write, c4) = read_latency(s, c3)?;
    let (duration, c5) = read_time(s, c4)?;
    let (local, c6) = xdr::read_bool(s, c5)?;
    Ok((
        UpdateItem {
            address,
            filehandle,
            read,
            write,
            duration,
            local,
        },
        c6,
    ))
}

// A record with the bytes of its own, taken out of the body.
ghost use Rattle.std.specs.Prelude.{◌≡◌, ◌+◌, ◌≤◌, length};
ghost use Rattle.base.specs.Limits.{stateid_size};
ghost use Rattle.base.specs.Lists.{padded};
ghost use Rattle.octets.specs.Numbers.{bytes_from};
ghost use Rattle.statistics.specs.Statistics.{netaddr_from, statistic_from, update_from};
ghost use Rattle.statistics.specs.Inside.{ItemInside, NetaddrInside, PartInside, UpdateInside};

use crate::item::StatisticItem;
use crate::updates::{NetaddrItem, UpdateItem};
use crate::{AddressText, Filehandle, LayoutUpdate, Netaddr, Netid, Statistic};
use base::STATEID_SIZE;
use xdr::Part;

// The 16 bytes of a stateid or a device id.
#[tactic(auto, using(crate::proofs::PlaceLaws::sixteen_filled))]
fn sixteen_at(s: &[u8], at: usize) -> [u8; STATEID_SIZE]
    requires { at + stateid_size ≤ length s.now }
    ensures { result ≡ bytes_from stateid_size s.now at }
{
    let mut bytes = [0u8; STATEID_SIZE];
    octets::put_bytes(&mut bytes, 0, &s[at..at + STATEID_SIZE]);
    bytes
}

// The bytes of a netid, an address or a filehandle, and zeros after them.
#[tactic(auto, using(crate::proofs::PlaceLaws::part_filled))]
fn part_of<const N: usize>(s: &[u8], part: Part) -> [u8; N]
    requires { PartInside N s.now part }
    ensures { result ≡ padded N 0 (bytes_from part.len s.now part.start) }
{
    let mut bytes = [0u8; N];
    octets::put_bytes(&mut bytes, 0, &s[part.start..part.start + part.len]);
    bytes
}

fn netaddr_of(s: &[u8], item: NetaddrItem) -> Netaddr
    requires { NetaddrInside s.now item }
    ensures { result ≡ netaddr_from s.now item }
{
    Netaddr {
        netid: Netid {
            length: item.netid.len as u32,
            bytes: part_of(s, item.netid),
        },
        text: AddressText {
            length: item.text.len as u32,
            bytes: part_of(s, item.text),
        },
    }
}

#[tactic(auto, unfolding(base::specs::Answer::pick))]
fn update_of(s: &[u8], item: UpdateItem) -> LayoutUpdate
    requires { UpdateInside s.now item }
    ensures { result ≡ update_from s.now item }
{
    LayoutUpdate {
        address: netaddr_of(s, item.address),
        filehandle: Filehandle {
            length: item.filehandle.len as u32,
            bytes: part_of(s, item.filehandle),
        },
        read: item.read,
        write: item.write,
        duration: item.duration,
        local: u32::from(item.local),
    }
}

pub(crate) fn statistic_of(s: &[u8], item: StatisticItem) -> Statistic
    requires { ItemInside s.now item }
    ensures { result ≡ statistic_from s.now item }
{
    Statistic {
        offset: item.range.offset,
        length: item.range.length,
        stateid: sixteen_at(s, item.stateid),
        read: item.read,
        write: item.write,
        device: sixteen_at(s, item.device),
        update: update_of(s, item.update),
    }
}

// The whole device body: a list of addresses, then a list of versions.
ghost use Rattle.std.specs.Prelude.{◌≡◌, replicate};
ghost use Rattle.base.specs.Limits.{most_addresses, most_versions};
ghost use Rattle.device.specs.Addresses.{blank_address};
ghost use Rattle.device.specs.Versions.{blank_version};
ghost use Rattle.device.specs.Bodies.{device_body, addresses_in, versions_in};
ghost use Rattle.device.specs.Answers.{answer_of_device, device_of};

use crate::address::Address;
use crate::list::read_list;
use crate::netid::NetidClass;
use crate::version::Version;
use base::{
    ADDRESS_ENTRIES, Fault, LONGEST_DEVICE_BODY, MOST_ADDRESSES, MOST_VERSIONS, VERSION_ENTRIES,
};
use xdr::{Cursor, Part};

// How many addresses and versions there are.
#[derive(Clone, Copy)]
pub struct DeviceCounts {
    pub addresses: u32,
    pub versions: u32,
}

// Unused entries are blank, and all of them after a refusal: the entries stand beside the answer, and not in its `Ok`,
// so that this can be promised of them.
#[derive(Clone, Copy)]
pub struct DeviceRead {
    pub answer: Result<DeviceCounts, Fault>,
    pub addresses: [Address; ADDRESS_ENTRIES],
    pub versions: [Version; VERSION_ENTRIES],
}

const NO_ADDRESS: Address = Address {
    class: NetidClass::Other,
    text: Part { start: 0, len: 0 },
};

const NO_VERSION: Version = Version {
    version: 0,
    minor: 0,
    rsize: 0,
    wsize: 0,
    tight: false,
};

// The items come into the lent entries, which were blank; a refusal says nothing of them.
#[tactic(auto, unfolding(crate::specs::Bodies::device_body, crate::specs::Bodies::device_at, xdr::specs::Parsed::then, xdr::specs::Parsed::whole, base::specs::Answer::pick))]
fn read_lists(
    s: &[u8],
    addresses: &mut [Address; ADDRESS_ENTRIES],
    versions: &mut [Version; VERSION_ENTRIES],
) -> Result<DeviceCounts, Fault>
    requires { (addresses.now ≡ replicate most_addresses blank_address)
        × (versions.now ≡ replicate most_versions blank_version) }
    ensures { device_of result addresses.new versions.new ≡ device_body s.now }
{
    if LONGEST_DEVICE_BODY < s.len() {
        return Err(Fault::OutsideLimit);
    }
    let (m, c1) = read_list(s, Cursor { at: 0 }, MOST_ADDRESSES, addresses)?;
    let (n, c2) = read_list(s, c1, MOST_VERSIONS, versions)?;
    if c2.at != s.len() {
        return Err(Fault::BytesLeftOver);
    }
    Ok(DeviceCounts {
        addresses: m,
        versions: n,
    })
}

pub fn read_device(s: &[u8]) -> DeviceRead
    ensures { (answer_of_device result ≡ device_body s.now)
        × (result.addresses ≡ addresses_in (device_body s.now))
        × (result.versions ≡ versions_in (device_body s.now)) }
{
    let mut addresses = [NO_ADDRESS; ADDRESS_ENTRIES];
    let mut versions = [NO_VERSION; VERSION_ENTRIES];
    let answer = read_lists(s, &mut addresses, &mut versions);
    if answer.is_err() {
        addresses = [NO_ADDRESS; ADDRESS_ENTRIES];
        versions = [NO_VERSION; VERSION_ENTRIES];
    }
    DeviceRead {
        answer,
        addresses,
        versions,
    }
}

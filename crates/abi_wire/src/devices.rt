// What was read of a device body: its addresses, each with its netid's class as a number, and its version entries.
ghost use Rattle.std.specs.Prelude.{◌≡◌, map};
ghost use Rattle.device.specs.Answers.{answer_of_device};
ghost use Rattle.abi_wire.specs.DeviceResults.{address_record, class_number, device_result};
ghost use Rattle.abi_wire.specs.DeviceResults.{version_record};

use crate::layouts::{PartRecord, part_record};
use base::{ADDRESS_ENTRIES, VERSION_ENTRIES};
use device::{Address, DeviceRead, NetidClass, Version};

// The class of the netid is 0 for other, 1 tcp, 2 tcp6, 3 udp, 4 udp6, 5 rdma, 6 rdma6.
#[repr(C)]
#[derive(Clone, Copy)]
pub struct AddressRecord {
    pub class: u32,
    pub text: PartRecord,
}

// Tightly coupled is 1, loosely 0.
#[repr(C)]
#[derive(Clone, Copy)]
pub struct VersionRecord {
    pub version: u32,
    pub minor: u32,
    pub rsize: u32,
    pub wsize: u32,
    pub tight: u32,
}

#[repr(C)]
#[derive(Clone, Copy)]
pub struct DeviceResult {
    pub refusal: u32,
    pub address_count: u32,
    pub version_count: u32,
    pub addresses: [AddressRecord; ADDRESS_ENTRIES],
    pub versions: [VersionRecord; VERSION_ENTRIES],
}

const NO_ADDRESS: AddressRecord = AddressRecord {
    class: 0,
    text: PartRecord { start: 0, len: 0 },
};

pub(crate) const NO_VERSION: VersionRecord = VersionRecord {
    version: 0,
    minor: 0,
    rsize: 0,
    wsize: 0,
    tight: 0,
};

fn class_number(c: NetidClass) -> u32
    ensures { result ≡ class_number c }
{
    match c {
        NetidClass::Other => 0,
        NetidClass::Tcp => 1,
        NetidClass::Tcp6 => 2,
        NetidClass::Udp => 3,
        NetidClass::Udp6 => 4,
        NetidClass::Rdma => 5,
        NetidClass::Rdma6 => 6,
    }
}

fn address_record(a: Address) -> AddressRecord
    ensures { result ≡ address_record a }
{
    AddressRecord {
        class: class_number(a.class),
        text: part_record(a.text),
    }
}

pub(crate) fn version_record(v: Version) -> VersionRecord
    ensures { result ≡ version_record v }
{
    VersionRecord {
        version: v.version,
        minor: v.minor,
        rsize: v.rsize,
        wsize: v.wsize,
        tight: u32::from(v.tight),
    }
}

fn address_records(items: [Address; ADDRESS_ENTRIES]) -> [AddressRecord; ADDRESS_ENTRIES]
    ensures { result ≡ map address_record items }
{
    let mut made = [NO_ADDRESS; ADDRESS_ENTRIES];
    for i in 0..ADDRESS_ENTRIES {
        let x = items[i];
        made[i] = address_record(x);
    }
    made
}

fn version_records(items: [Version; VERSION_ENTRIES]) -> [VersionRecord; VERSION_ENTRIES]
    ensures { result ≡ map version_record items }
{
    let mut made = [NO_VERSION; VERSION_ENTRIES];
    for i in 0..VERSION_ENTRIES {
        let x = items[i];
        made[i] = version_record(x);
    }
    made
}

#[tactic(auto, unfolding(crate::specs::DeviceResults::device_result))]
pub fn device_result(d: DeviceRead) -> DeviceResult
    ensures { result ≡ device_result (answer_of_device d) }
{
    match d.answer {
        Err(e) => DeviceResult {
            refusal: u32::from(e),
            address_count: 0,
            version_count: 0,
            addresses: [NO_ADDRESS; ADDRESS_ENTRIES],
            versions: [NO_VERSION; VERSION_ENTRIES],
        },
        Ok(n) => {
            let read = d.addresses;
            let entries = d.versions;
            let addresses = address_records(read);
            let versions = version_records(entries);
            DeviceResult {
                refusal: 0,
                address_count: n.addresses,
                version_count: n.versions,
                addresses,
                versions,
            }
        }
    }
}

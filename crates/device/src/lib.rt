// The device body: the addresses of a data server (netaddr4) and the versions it takes (ff_device_versions4).
#![tactic(auto)]

mod address;
mod body;
mod list;
mod netid;
mod version;

pub use address::Address;
pub use body::{DeviceCounts, DeviceRead, read_device};
pub use netid::NetidClass;
pub use version::Version;

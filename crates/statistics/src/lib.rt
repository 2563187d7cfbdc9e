// I/O statistics: the records `ff_iostats4` after the reports of a layout return, read and written. The structures are
// those of RFC 8435, 9.2, and of RFC 7862 and RFC 8881 where it takes them from there; they cross to C as they are.
#![tactic(auto)]

mod check;
mod encode;
mod item;
mod latencies;
mod list;
mod put;
mod record;
mod times;
mod updates;

use base::{ADDRESS_SIZE, DEVICE_ID_SIZE, FILEHANDLE_SIZE, NETID_SIZE, STATEID_SIZE};
pub use encode::{EncodedStatistics, encode_into, encode_statistics};
pub use list::{NO_STATISTIC, StatisticList, read_list, statistics_end};

// `nfstime4`. Seconds are signed on the wire: a number of 2^63 or more is negative.
#[repr(C)]
#[derive(Clone, Copy)]
pub struct Time {
    pub seconds: u64,
    pub nanoseconds: u32,
}

// `io_info4`
#[repr(C)]
#[derive(Clone, Copy)]
pub struct IoInfo {
    pub count: u64,
    pub bytes: u64,
}

// `ff_io_latency4`
#[repr(C)]
#[derive(Clone, Copy)]
pub struct Latency {
    pub ops_requested: u64,
    pub bytes_requested: u64,
    pub ops_completed: u64,
    pub bytes_completed: u64,
    pub bytes_not_delivered: u64,
    pub busy: Time,
    pub completion: Time,
}

// Of the bytes of a netid, an address and a filehandle the first `length` count; the others are spare.
#[repr(C)]
#[derive(Clone, Copy)]
pub struct Netid {
    pub length: u32,
    pub bytes: [u8; NETID_SIZE],
}

#[repr(C)]
#[derive(Clone, Copy)]
pub struct AddressText {
    pub length: u32,
    pub bytes: [u8; ADDRESS_SIZE],
}

#[repr(C)]
#[derive(Clone, Copy)]
pub struct Filehandle {
    pub length: u32,
    pub bytes: [u8; FILEHANDLE_SIZE],
}

// `netaddr4`
#[repr(C)]
#[derive(Clone, Copy)]
pub struct Netaddr {
    pub netid: Netid,
    pub text: AddressText,
}

// `ff_layoutupdate4`. `local` is 0 or 1.
#[repr(C)]
#[derive(Clone, Copy)]
pub struct LayoutUpdate {
    pub address: Netaddr,
    pub filehandle: Filehandle,
    pub read: Latency,
    pub write: Latency,
    pub duration: Time,
    pub local: u32,
}

// `ff_iostats4`
#[repr(C)]
#[derive(Clone, Copy)]
pub struct Statistic {
    pub offset: u64,
    pub length: u64,
    pub stateid: [u8; STATEID_SIZE],
    pub read: IoInfo,
    pub write: IoInfo,
    pub device: [u8; DEVICE_ID_SIZE],
    pub update: LayoutUpdate,
}

// What every layer shares: refusals with their numbers, iomodes, the three kinds of number, limits and sizes, the two
// range rules, and sets of bits.
#![tactic(auto)]

mod bits;
mod iomode;
mod limits;
mod range;
mod refusal;

pub use bits::has_bit;
pub use iomode::{Iomode, grant_iomode};
pub use limits::{
    ADDRESS_ENTRIES, ADDRESS_SIZE, DEVICE_ID_SIZE, ERROR_LIST_SIZE, ERROR_SIZE, EVERY_VERSION,
    FILEHANDLE_SIZE, KNOWN_FLAGS, LONGEST_ADDRESS, LONGEST_BODY, LONGEST_DEVICE_BODY,
    LONGEST_FILEHANDLE, LONGEST_NAME, LONGEST_NETID, LONGEST_STATISTIC, LONGEST_STATISTICS,
    MIRROR_ENTRIES, MOST_ADDRESSES, MOST_ERRORS, MOST_ERRORS_IN_ALL, MOST_FILEHANDLES,
    MOST_MIRRORS, MOST_REPORTS, MOST_SEGMENTS, MOST_SERVERS, MOST_STARTS, MOST_STATISTICS,
    MOST_VERSIONS, NETID_SIZE, REPORT_ENTRIES, REPORT_HEAD_SIZE, ROW_ENTRIES, SLOT_COUNT,
    SLOT_ENTRIES, SLOT_HEAD_SIZE, SLOT_SIZE, STATEID_SIZE, STATISTIC_ENTRIES, STORE_SIZE,
    VERSION_ENTRIES,
};
pub use range::{LARGEST_SUM, LAST_BYTE, TO_THE_END, range_last, request_last};
pub use refusal::{Fault, Refusal, fault_of};

// A mirror's number among the mirrors of a layout.
#[derive(Clone, Copy)]
pub struct MirrorNumber(pub u32);

// A data server's number among the servers of a mirror.
#[derive(Clone, Copy)]
pub struct StripeNumber(pub u32);

// A slot's number in the body store.
#[derive(Clone, Copy)]
pub struct SlotNumber(pub u32);

// The body of `ff_layoutreturn4`, error reports and statistics, read and written.
#![tactic(auto)]

mod body;
mod check;
mod error;
mod head;
mod put;
mod write;

use base::{REPORT_ENTRIES, STATEID_SIZE, STATISTIC_ENTRIES};
pub use body::{ReportsRead, StatisticsRead, read_reports, read_statistics};
pub use error::{error_fits, read_error};
pub use put::put_error;
use statistics::Statistic;
pub use write::{write_reports, write_return};

// What is before the errors of a report. `errors` is how many errors follow. It crosses to C as it is.
#[repr(C)]
#[derive(Clone, Copy)]
pub struct ReportHead {
    pub offset: u64,
    pub length: u64,
    pub stateid: [u8; STATEID_SIZE],
    pub errors: u32,
}

// What is to be written, but for the errors. Entries from a count on are not looked at. It crosses to C as it is.
#[repr(C)]
#[derive(Clone, Copy)]
pub struct Outgoing {
    pub count: u32,
    pub heads: [ReportHead; REPORT_ENTRIES],
    pub statistic_count: u32,
    pub statistics: [Statistic; STATISTIC_ENTRIES],
}

// Where the items of a report's head are, from its start: "offset, length .., stateid, error count".
pub const REPORT_LENGTH_OFFSET: usize = 8;

pub const REPORT_STATEID_OFFSET: usize = REPORT_LENGTH_OFFSET + 8;

pub const REPORT_COUNT_OFFSET: usize = REPORT_STATEID_OFFSET + STATEID_SIZE;

// Where the items of an error are, from its start: "device id, status, operation".
pub const ERROR_STATUS_OFFSET: usize = base::DEVICE_ID_SIZE;

pub const ERROR_OPERATION_OFFSET: usize = ERROR_STATUS_OFFSET + 4;

// One error. `device` is the offset of its device id.
#[derive(Clone, Copy)]
pub struct ErrorItem {
    pub device: usize,
    pub status: u32,
    pub operation: u32,
}

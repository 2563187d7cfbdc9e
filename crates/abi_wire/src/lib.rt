// What the readers of the wire answer, as records of plain numbers, in which it crosses to C and Rust. An offset is
// counted from the first byte of the body read. After a refusal all but its number is 0.
#![tactic(auto)]

mod bindings;
mod devices;
mod errors;
mod layouts;
mod reports;
mod statistics_results;

pub use bindings::{BindResult, bind_result};
pub use devices::{AddressRecord, DeviceResult, VersionRecord, device_result};
pub use errors::{ErrorResult, error_result};
pub use layouts::{
    Layout4Result, LayoutResult, PartRecord, SummaryRecord, layout_result, layout4_result,
};
pub use reports::{ReportsResult, reports_result};
pub use statistics_results::{StatisticsResult, statistics_result};

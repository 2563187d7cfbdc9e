// A table as a record of plain numbers, in which it crosses to C and Rust: an enum cannot.
#![tactic(auto)]

mod from;
mod into;
mod types;

pub use from::table_of;
pub use into::record_of;
pub use types::{SegmentRecord, TableRecord};

// What a client calls; `basilothyn_c` exports it to C. A table goes in and comes out as a record of plain numbers, by
// value, and a refusal as its number, 0 where there is none. A record that is no table is unsound.
#![tactic(auto)]

mod event;
mod io;
mod reports;
mod wire;

pub use event::{
    EventResult, basilothyn_empty_table, basilothyn_grant, basilothyn_recall, basilothyn_return,
    basilothyn_revoke,
};
pub use io::{LocateResult, basilothyn_locate_read, basilothyn_locate_write};
pub use reports::{ReportHeads, WriteResult, basilothyn_write_report, basilothyn_write_return};
pub use wire::{
    basilothyn_bind, basilothyn_read_device, basilothyn_read_error, basilothyn_read_layout,
    basilothyn_read_layout4, basilothyn_read_reports, basilothyn_read_statistics,
};

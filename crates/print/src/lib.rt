// What the programs show, as it is displayed.
#![tactic(auto)]

mod cell;
mod shown;

pub use cell::digits;
pub use shown::{Hex, Refused, between, device_id};

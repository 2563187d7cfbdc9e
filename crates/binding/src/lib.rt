// One data server of a layout bound to its device.
#![tactic(auto)]

mod bind_body;
mod choice;
mod entry;

pub use bind_body::bind;
pub use entry::Bound;

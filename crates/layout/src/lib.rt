// The layout body (ff_layout4).
#![tactic(auto)]

mod body;
mod front_and_tail;
mod mirrors;
mod start;

pub use body::{LayoutRead, Summary, read_layout};
pub use front_and_tail::flags_at_end;
pub use start::start_of;

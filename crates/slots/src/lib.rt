// Slots as table and body store have them: where a granted body goes, and the slots that no segment names any more.
#![tactic(auto)]

mod choice;
mod clear;

pub use choice::{SlotChoice, choose_slot};
pub use clear::clear_unnamed;

// Questions about a table: which slots segments name, and whether a segment that meets a range has a right of a kind.
#![tactic(auto)]

mod named;
mod range;

pub use named::named_slots;
pub use range::{Condition, meets};

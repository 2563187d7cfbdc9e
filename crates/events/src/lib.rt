// The four events on a table and a body store. Each goes through five stages: soundness; the event's own bytes and
// numbers; what the rights say; the edit; the store, which is written after the last test has passed.
#![tactic(auto)]

mod command;
mod decision;
mod event;
mod outcome;
mod stages;
mod update;

pub use event::{Event, Numbers};
pub use outcome::Outcome;
pub use stages::apply;
// What the definitions of the stages speak of.
pub use decision::Update;

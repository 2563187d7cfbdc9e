// The edits of a table's lists: the bytes of a range granted, cleared or recalled.
#![tactic(auto)]

mod builder;
mod change;
mod edit;
mod fragment;

pub use change::Change;
pub use edit::edit_list;

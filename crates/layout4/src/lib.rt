// A whole layout4 with a flexible file body.
#![tactic(auto)]

mod frame;
mod whole;

pub use whole::{Layout4, Layout4Read, read_layout4};

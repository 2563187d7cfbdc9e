// Numbers and runs of bytes: read off a slice, compared, tested for zeros, and stored into a buffer.
#![tactic(auto)]

mod compare;
mod load;
mod store;
mod zero;

pub use compare::same;
pub use load::{be4, be8, le2, le4, le8};
pub use store::{put_be4, put_be8, put_bytes, put_le2, put_le4, put_zeros};
pub use zero::all_zero;

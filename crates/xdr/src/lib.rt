// XDR items, read off a slice at a cursor.
#![tactic(auto)]

mod item;
mod number;
mod range;

use base::Fault;
pub use item::{read_bool, read_bytes, read_count, read_opaque};
pub use number::{read_u32, read_u64};
pub use range::{Range, read_range};

// The offset of the next item.
#[derive(Clone, Copy)]
pub struct Cursor {
    pub at: usize,
}

// Where the bytes of an item are.
#[derive(Clone, Copy)]
pub struct Part {
    pub start: usize,
    pub len: usize,
}

// What a reader of an item answers: the item and the offset after it, or the first fault met.
pub type Read<T> = Result<(T, Cursor), Fault>;

// One data server of a layout body.
#![tactic(auto)]

mod handles;
mod head;
mod item;

pub use handles::skip_handles;
pub use item::{Server, read_server};

// Where a server's efficiency is, from the server's start: after the device id.
pub const SERVER_EFFICIENCY_OFFSET: usize = base::DEVICE_ID_SIZE;

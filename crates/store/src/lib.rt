// The body store, eight slots in 32,768 borrowed bytes: what a slot holds, a body laid into it, and a slot cleared.
#![tactic(auto)]

ghost use Rattle.std.specs.Prelude.{◌≡◌, ◌*◌};
ghost use Rattle.base.specs.Limits.{slot_size};

use base::{SLOT_SIZE, SlotNumber};

mod lay;
mod slot;

pub use lay::{clear_slot, lay_body};
pub use slot::{holds_body, slot_body, slot_bytes, slot_kind, slot_length};

// Where a slot begins.
fn start(i: SlotNumber) -> usize
    ensures { result ≡ i.0 * slot_size }
{
    i.0 as usize * SLOT_SIZE
}

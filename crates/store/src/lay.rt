// A slot laid out anew. Where the store has no such slot, or the body is too long for one, the store stays as it was.
ghost use Rattle.std.specs.Prelude.{◌≡◌};
ghost use Rattle.store.specs.Store.{empty, holds, slot_set};

use crate::start;
use base::{SLOT_HEAD_SIZE, SLOT_SIZE, SlotNumber};

// The bytes of a slot after its head.
const ROOM: usize = SLOT_SIZE - SLOT_HEAD_SIZE;

pub fn lay_body(store: &mut [u8], i: SlotNumber, body: &[u8])
    ensures { store.new ≡ slot_set store.old i.0 (holds body.now) }
{
    let at = start(i);
    let n = body.len();
    if ROOM < n {
        return;
    }
    if store.len() < at {
        return;
    }
    if store.len() - at < SLOT_SIZE {
        return;
    }
    octets::put_le4(store, at, n as u32);
    octets::put_le2(store, at + 4, 4);
    octets::put_bytes(store, at + SLOT_HEAD_SIZE, body);
    octets::put_zeros(store, at + SLOT_HEAD_SIZE + n, ROOM - n);
}

pub fn clear_slot(store: &mut [u8], i: SlotNumber)
    ensures { store.new ≡ slot_set store.old i.0 empty }
{
    octets::put_zeros(store, start(i), SLOT_SIZE);
}

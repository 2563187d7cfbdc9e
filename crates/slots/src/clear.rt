// Slots zeroed once no segment names them.
ghost use Rattle.std.specs.Prelude.{◌≡◌, ◌&&◌, not};
ghost use Rattle.base.specs.Limits.{slot_count};
ghost use Rattle.base.specs.Answer.{pick};
ghost use Rattle.store.specs.Store.{empty, slot_set};
ghost use Rattle.slots.specs.Slots.{cleared_from, is_set};

use base::{SLOT_COUNT, SLOT_ENTRIES, SlotNumber};

// A slot that was named and is no more.
fn clear_if_unnamed(was: bool, is: bool, i: SlotNumber, store: &mut [u8])
    ensures { store.new ≡ pick (was
        && not is) (slot_set store.old i.0 empty) store.old }
{
    if !was {
        return;
    }
    if is {
        return;
    }
    store::clear_slot(store, i);
}

// Those that were named before an event and are not after it: all others are as they have to be.
pub fn clear_unnamed(was: [bool; SLOT_ENTRIES], is: [bool; SLOT_ENTRIES], store: &mut [u8])
    ensures { store.new ≡ cleared_from (is_set was) (is_set is) slot_count 0 store.old }
{
    for i in 0..SLOT_COUNT {
        let k = i as usize;
        clear_if_unnamed(was[k], is[k], SlotNumber(i), store);
    }
}

// The slot of a granted body.
ghost use Rattle.std.specs.Prelude.{◌≡◌, List, ℕ};
ghost use Rattle.base.specs.Limits.{slot_count};
ghost use Rattle.model.specs.SlotsShown.{slots_from};
ghost use Rattle.slots.specs.Slots.{free_choice, slot_choice, is_set};

use base::{SLOT_COUNT, SLOT_ENTRIES, SlotNumber};

// The slot that holds a body; else the lowest one that no segment names; else none.
#[derive(Clone, Copy)]
pub enum SlotChoice {
    Holding(SlotNumber),
    Free(SlotNumber),
    NoneLeft,
}

// `named` says of each slot whether a segment names it.
fn unnamed(named: [bool; SLOT_ENTRIES]) -> SlotChoice
    ensures { (bytes : List ℕ) → result ≡ free_choice (slots_from (is_set named) bytes slot_count 0) }
{
    for i in 0..SLOT_COUNT {
        let k = i as usize;
        if !named[k] {
            return SlotChoice::Free(SlotNumber(i));
        }
    }
    SlotChoice::NoneLeft
}

pub fn choose_slot(named: [bool; SLOT_ENTRIES], store: &[u8], body: &[u8]) -> SlotChoice
    ensures { result ≡ slot_choice body.now (slots_from (is_set named) store.now slot_count 0) }
{
    for i in 0..SLOT_COUNT {
        let k = i as usize;
        let s = SlotNumber(i);
        if store::holds_body(named[k], store, s, body) {
            return SlotChoice::Holding(s);
        }
    }
    unnamed(named)
}

// Whether the slots are sound: a named one holds an accepted body, laid out as said; any other is zero.
ghost use Rattle.std.specs.Prelude.{◌≡◌, true, List, ℕ};
ghost use Rattle.layout.specs.Answers.{answer_of_layout};
ghost use Rattle.layout.specs.Layouts.{layout_body};
ghost use Rattle.segments.specs.declared.Table.{Table};
ghost use Rattle.lookup.specs.Lookup.{named_slots};
ghost use Rattle.store.specs.Store.{body_in};
ghost use Rattle.soundness.specs.Sound.{slot_sound};
ghost use Rattle.soundness.specs.Validations.{SlotsValidation, UnsoundValidation};

use base::{
    Fault, LONGEST_BODY, MOST_STARTS, SLOT_COUNT, SLOT_ENTRIES, SLOT_HEAD_SIZE, SlotNumber,
};
use layout::{LayoutRead, Summary};

// `read` is what the layout body in one slot reads as, the one that was asked for: a lookup would read it again. Where
// nothing was read, it is refused as no bytes at all are, and its starts are 0. `named` says of each slot whether a
// segment names it; of an unsound table none. What is beside `sound` when it is false is promised too
// (`validate_and_read`), so it is a flag.
#[derive(Clone, Copy)]
pub struct Validation {
    pub read: LayoutRead,
    pub named: [bool; SLOT_ENTRIES],
    pub sound: bool,
}

pub(crate) fn unsound() -> Validation
    ensures { UnsoundValidation result }
{
    let read = LayoutRead {
        answer: Err(Fault::BytesRunOut),
        starts: [0u16; MOST_STARTS],
    };
    Validation {
        read,
        named: [false; SLOT_ENTRIES],
        sound: false,
    }
}

// A named slot. `answer` is what its body reads as.
fn is_filled(slot: &[u8], answer: Result<Summary, Fault>) -> bool
    ensures { (starts : List ℕ) → answer_of_layout answer starts ≡ layout_body (body_in slot.now)
        → result ≡ slot_sound true slot.now }
{
    let n = store::slot_length(slot) as usize;
    if LONGEST_BODY < n {
        return false;
    }
    if store::slot_kind(slot) != 4 {
        return false;
    }
    if !answer.is_ok() {
        return false;
    }
    octets::all_zero(slot, SLOT_HEAD_SIZE + n)
}

// `named` says of each slot whether a segment names it.
pub(crate) fn validate_slots(
    named: [bool; SLOT_ENTRIES],
    store: &[u8],
    asked: SlotNumber,
) -> Validation
    ensures { (t : Table) → named ≡ named_slots t → SlotsValidation t store.now asked.0 result }
{
    let none = unsound();
    let mut read = none.read;
    for i in 0..SLOT_COUNT {
        let k = i as usize;
        let slot = store::slot_bytes(store, SlotNumber(i));
        if named[k] {
            let l = layout::read_layout(store::slot_body(slot));
            if !is_filled(slot, l.answer) {
                return none;
            }
            if i == asked.0 {
                read = l;
            }
        } else {
            if !octets::all_zero(slot, 0) {
                return none;
            }
        }
    }
    Validation {
        read,
        named,
        sound: true,
    }
}

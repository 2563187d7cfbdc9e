// Whether a table and a body store, whatever they are, are sound.
#![tactic(auto)]

ghost use Rattle.std.specs.Prelude.{◌≡◌};
ghost use Rattle.layout.specs.Answers.{answer_of_layout, starts_in};
ghost use Rattle.soundness.specs.Sound.{sound};
ghost use Rattle.soundness.specs.Validations.{layout_if_sound, named_if_sound};

use base::{SLOT_ENTRIES, STORE_SIZE, SlotNumber};
use segments::Table;

mod bodies;
mod distinct;
mod lists;

pub use bodies::Validation;

// The verdict, and which slots segments name; of an unsound table none, which `validate` promises, so it is a flag.
#[derive(Clone, Copy)]
pub struct Soundness {
    pub named: [bool; SLOT_ENTRIES],
    pub sound: bool,
}

// The verdict, and what the layout body in this slot reads as. The store's length is tested first, since the slots are
// looked at by their offsets.
pub fn validate_and_read(t: Table, store: &[u8], slot: SlotNumber) -> Validation
    ensures { (result.sound ≡ sound t store.now)
        × (answer_of_layout result.read.answer result.read.starts ≡ layout_if_sound t store.now slot.0)
        × (result.read.starts ≡ starts_in (layout_if_sound t store.now slot.0))
        × (result.named ≡ named_if_sound t store.now) }
{
    if store.len() != STORE_SIZE {
        return bodies::unsound();
    }
    if !lists::lists_sound(t) {
        return bodies::unsound();
    }
    let named = lookup::named_slots(t);
    let j = bodies::validate_slots(named, store, slot);
    if !j.sound {
        return bodies::unsound();
    }
    if !distinct::all_distinct(named, store) {
        return bodies::unsound();
    }
    j
}

pub fn validate(t: Table, store: &[u8]) -> Soundness
    ensures { (result.sound ≡ sound t store.now) × (result.named ≡ named_if_sound t store.now) }
{
    let j = validate_and_read(t, store, SlotNumber(0));
    let named = j.named;
    Soundness {
        named,
        sound: j.sound,
    }
}

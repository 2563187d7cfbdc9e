// Whether no two named slots hold the same body. `named` says of each slot whether a segment names it.
ghost use Rattle.std.specs.Prelude.{◌≡◌, ◌&&◌, ◌+◌, ◌-◌, ◌<◌};
ghost use Rattle.base.specs.Limits.{slot_count};
ghost use Rattle.segments.specs.declared.Table.{Table};
ghost use Rattle.segments.specs.Segments.{is_named};
ghost use Rattle.lookup.specs.Lookup.{named_slots};
ghost use Rattle.store.specs.Store.{body_in, slot_at};
ghost use Rattle.model.specs.Model.{in_slots};
ghost use Rattle.model.specs.SlotsShown.{all_distinct, slots_from, slots_in};

use base::{SLOT_COUNT, SLOT_ENTRIES, SlotNumber};

// Whether a slot from this one on holds the body.
fn is_held_from(named: [bool; SLOT_ENTRIES], store: &[u8], from: SlotNumber, body: &[u8]) -> bool
    ensures { (t : Table) → named ≡ named_slots t
        → result ≡ in_slots body.now
        (slots_from (is_named t) store.now (slot_count - from.0) from.0) }
{
    for j in from.0..SLOT_COUNT {
        let k = j as usize;
        if store::holds_body(named[k], store, SlotNumber(j), body) {
            return true;
        }
    }
    false
}

// Whether a later slot holds the body of this one.
fn is_held_again(named: [bool; SLOT_ENTRIES], store: &[u8], i: SlotNumber) -> bool
    requires { i.0 < slot_count }
    ensures { (t : Table) → named ≡ named_slots t
        → result ≡ (is_named t i.0
        && in_slots (body_in (slot_at store.now i.0))
        (slots_from (is_named t) store.now (slot_count - (i.0 + 1)) (i.0 + 1))) }
{
    let k = i.0 as usize;
    if !named[k] {
        return false;
    }
    let slot = store::slot_bytes(store, i);
    let body = store::slot_body(slot);
    let next = i.0 + 1;
    is_held_from(named, store, SlotNumber(next), body)
}

pub(crate) fn all_distinct(named: [bool; SLOT_ENTRIES], store: &[u8]) -> bool
    ensures { (t : Table) → named ≡ named_slots t → result ≡ all_distinct (slots_in t store.now) }
{
    for i in 0..SLOT_COUNT {
        if is_held_again(named, store, SlotNumber(i)) {
            return false;
        }
    }
    true
}

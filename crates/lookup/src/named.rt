// Which slots the segments of a table name. All eight are found in one walk: each question by itself would copy the
// table.
ghost use Rattle.std.specs.Prelude.{◌≡◌, ℕ, eqb};
ghost use Rattle.segments.specs.Segments.{any_names, is_of_slot, list_of};
ghost use Rattle.lookup.specs.Lookup.{Marking, named_slots};

use base::{SLOT_COUNT, SLOT_ENTRIES, SlotNumber};
use segments::{Right, Segments, Table};

fn mark_slot(named: &mut [bool; SLOT_ENTRIES], s: SlotNumber)
    ensures { Marking (λ (i : ℕ). eqb i s.0) named.old named.new }
{
    if s.0 < SLOT_COUNT {
        let i = s.0 as usize;
        named[i] = true;
    }
}

fn mark(named: &mut [bool; SLOT_ENTRIES], right: Right)
    ensures { Marking (λ (i : ℕ). is_of_slot i right) named.old named.new }
{
    match right {
        Right::None => {}
        Right::Granted(s) => mark_slot(named, s),
        Right::Recalled(s) => mark_slot(named, s),
    }
}

// The list comes by value: borrowed from the table, it makes the caller copy the whole table, 776 bytes of stack more.
fn mark_all(named: &mut [bool; SLOT_ENTRIES], g: Segments)
    ensures { Marking (λ (i : ℕ). any_names i (list_of g)) named.old named.new }
{
    let all = g.used();
    for s in all {
        mark(named, s.right);
    }
}

pub fn named_slots(t: Table) -> [bool; SLOT_ENTRIES]
    ensures { result ≡ named_slots t }
{
    let mut named = [false; SLOT_ENTRIES];
    mark_all(&mut named, t.read);
    mark_all(&mut named, t.rw);
    named
}

// What serves a request: the granted segment at its first byte.
ghost use Rattle.std.specs.Prelude.{◌≡◌, true};
ghost use Rattle.segments.specs.Segments.{list_of, within};
ghost use Rattle.soundness.specs.Sound.{sound};
ghost use Rattle.route.specs.Answers.{answer_of_grant, grant_for_reads, serving_grant, slot_asked};
ghost use Rattle.route.specs.Routes.{grant_in, grant_of};

use base::{Iomode, SlotNumber};
use segments::{Right, Segment, Segments, Table};

// A granted segment: its iomode, the slot of its body, and its last byte.
#[derive(Clone, Copy)]
pub struct Grant {
    pub iomode: Iomode,
    pub slot: SlotNumber,
    pub last: u64,
}

fn grant_of(iomode: Iomode, right: Right, last: u64) -> Option<Grant>
    ensures { answer_of_grant result ≡ grant_of iomode right last }
{
    match right {
        Right::None => None,
        Right::Granted(slot) => Some(Grant { iomode, slot, last }),
        Right::Recalled(_) => None,
    }
}

fn holds_byte(s: Segment, x: u64) -> bool
    ensures { result ≡ within s.first s.last x }
{
    if x < s.first {
        return false;
    }
    x <= s.last
}

// The granted segment at a byte, among those of an iomode.
fn grant_in(iomode: Iomode, g: &Segments, x: u64) -> Option<Grant>
    ensures { answer_of_grant result ≡ grant_in iomode (list_of g.now) x }
{
    for s in g.used() {
        if holds_byte(*s, x) {
            return grant_of(iomode, s.right, s.last);
        }
    }
    None
}

// ".. RW granted under a body without flag 4": a grant of RW, where it serves reads. The flag is read near the body's
// end, before table and store are validated, so that the validation is asked for the one body that serves, and no body
// is read twice.
fn grant_for_reads(store: &[u8], h: Option<Grant>) -> Option<Grant>
    ensures { answer_of_grant result ≡ grant_for_reads store.now (answer_of_grant h) }
{
    let g = h?;
    let slot = g.slot;
    let flags = layout::flags_at_end(store::slot_body(store::slot_bytes(store, slot)));
    if base::has_bit(flags, 4) {
        return None;
    }
    Some(g)
}

// "A write needs RW granted. A read needs READ granted, or RW granted under a body without flag 4; where both serve at
// its first byte, RW is used." (C-11) Of an unsound table or store it may be any grant: the request is then refused
// with 20.
pub(crate) fn serving_grant(write: bool, t: Table, store: &[u8], x: u64) -> Option<Grant>
    ensures { sound t store.now ≡ true
        → answer_of_grant result ≡ serving_grant write t store.now x }
{
    let h = grant_in(Iomode::ReadWrite, &t.rw, x);
    if write {
        return h;
    }
    if let Some(g) = grant_for_reads(store, h) {
        return Some(g);
    }
    grant_in(Iomode::Read, &t.read, x)
}

// The slot whose body is to be read: the grant's, and 0 where there is none.
pub(crate) fn slot_asked(h: Option<Grant>) -> SlotNumber
    ensures { result.0 ≡ slot_asked (answer_of_grant h) }
{
    match h {
        Some(g) => g.slot,
        None => SlotNumber(0),
    }
}

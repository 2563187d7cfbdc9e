// Whether a segment that meets a range has a right of a kind.
ghost use Rattle.std.specs.Prelude.{◌≡◌, ◌&&◌, leb};
ghost use Rattle.segments.specs.Segments.{any_meets, list_of};
ghost use Rattle.lookup.specs.Lookup.{satisfies, table_meets};

use base::SlotNumber;
use segments::{Right, Segment, Segments, Span, Table};

// What is asked of a right.
#[derive(Clone, Copy)]
pub enum Condition {
    Held,
    // Under another slot than this.
    HeldElsewhere(SlotNumber),
    Recalled,
}

fn satisfied(c: Condition, r: Right) -> bool
    ensures { result ≡ satisfies c r }
{
    match c {
        Condition::Held => match r {
            Right::None => false,
            Right::Granted(_) => true,
            Right::Recalled(_) => true,
        },
        Condition::HeldElsewhere(s) => match r {
            Right::None => false,
            Right::Granted(x) => x.0 != s.0,
            Right::Recalled(x) => x.0 != s.0,
        },
        Condition::Recalled => match r {
            Right::None => false,
            Right::Granted(_) => false,
            Right::Recalled(_) => true,
        },
    }
}

fn hits(s: Segment, first: u64, last: u64, c: Condition) -> bool
    ensures { result ≡ (leb s.first last && leb first s.last && satisfies c s.right) }
{
    if last < s.first {
        return false;
    }
    if s.last < first {
        return false;
    }
    let right = s.right;
    satisfied(c, right)
}

fn any_meets(g: &Segments, first: u64, last: u64, c: Condition) -> bool
    ensures { result ≡ any_meets (satisfies c) first last (list_of g.now) }
{
    for s in g.used() {
        if hits(*s, first, last, c) {
            return true;
        }
    }
    false
}

// Any right in the span, of the iomode or, for ANY, of either.
pub fn meets(t: Table, s: Span, c: Condition) -> bool
    ensures { result ≡ table_meets (satisfies c) s.iomode s.first s.last t }
{
    for i in 0..2 {
        if segments::acts_on(s.iomode, i) {
            let g = segments::list_in(t, i);
            if any_meets(&g, s.first, s.last, c) {
                return true;
            }
        }
    }
    false
}

// Whether the segments of one iomode are sound: in order, apart, each under a slot, and the other entries blank.
ghost use Rattle.std.specs.Prelude.{◌≡◌, ◌&&◌};
ghost use Rattle.soundness.specs.Sound.{apart, has_slot, is_blank, is_fit, segments_sound};

use base::{MOST_SEGMENTS, SLOT_COUNT};
use segments::{Right, Segment, Segments, Table};

fn has_slot(r: Right) -> bool
    ensures { result ≡ has_slot r }
{
    match r {
        Right::None => false,
        Right::Granted(s) => s.0 < SLOT_COUNT,
        Right::Recalled(s) => s.0 < SLOT_COUNT,
    }
}

// One segment by itself.
fn is_fit(s: Segment) -> bool
    ensures { result ≡ is_fit s }
{
    if s.last < s.first {
        return false;
    }
    has_slot(s.right)
}

// Two neighbours. The gap is a difference, since the byte after the last one has no number.
fn are_apart(a: Segment, b: Segment) -> bool
    ensures { result ≡ apart a b }
{
    if b.first <= a.last {
        return false;
    }
    if b.first - a.last != 1 {
        return true;
    }
    !segments::same_right(a.right, b.right)
}

fn is_blank(s: Segment) -> bool
    ensures { result ≡ is_blank s }
{
    if s.first != 0 {
        return false;
    }
    if s.last != 0 {
        return false;
    }
    segments::same_right(Right::None, s.right)
}

// Each segment by itself, and with its neighbour after it; then the entries after the last one, with no exit among
// them, which costs more than it saves.
fn segments_sound(g: Segments) -> bool
    ensures { result ≡ segments_sound g }
{
    if MOST_SEGMENTS < g.count {
        return false;
    }
    let all = g.used();
    for k in 0..all.len() {
        let s = all[k];
        if !is_fit(s) {
            return false;
        }
        let next = k + 1;
        if next < all.len() {
            let b = all[next];
            if !are_apart(s, b) {
                return false;
            }
        }
    }
    let mut blank = true;
    for s in &g.items[g.count..] {
        blank = blank & is_blank(*s);
    }
    blank
}

pub(crate) fn lists_sound(t: Table) -> bool
    ensures { result ≡ (segments_sound t.read && segments_sound t.rw) }
{
    for i in 0..2 {
        let g = segments::list_in(t, i);
        if !segments_sound(g) {
            return false;
        }
    }
    true
}

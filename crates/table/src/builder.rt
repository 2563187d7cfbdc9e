// A list of segments under construction. Segments are pushed in the order of their bytes, and joined where they touch.
ghost use Rattle.std.specs.Prelude.{◌≡◌, [], ◌≤◌, List};
ghost use Rattle.base.specs.Limits.{most_segments};
ghost use Rattle.segments.specs.declared.Segment.{Segment};
ghost use Rattle.table.specs.Edits.{edited, push_all, touching};
ghost use Rattle.table.specs.Builders.{Built, one_or_none};

use crate::change::Change;
use crate::fragment;
use base::MOST_SEGMENTS;
use segments::{BLANK, Right, Segment};

// Once a segment has found no free entry, the builder is full and stays so.
#[derive(Clone, Copy)]
pub(crate) struct Builder {
    pub items: [Segment; MOST_SEGMENTS],
    pub count: usize,
    pub full: bool,
}

#[tactic(auto, unfolding(base::specs::Lists::padded))]
fn empty_builder() -> Builder
    ensures { Built result [] }
{
    Builder {
        items: [BLANK; MOST_SEGMENTS],
        count: 0,
        full: false,
    }
}

// Whether s goes on where a ends, with the same right under the same body.
#[tactic(auto, unfolding(crate::specs::Edits::touching))]
fn touches(a: Segment, s: Segment) -> bool
    ensures { result ≡ touching a s }
{
    // What ends before another starts ends below the largest number, so that the sum exists.
    if a.last < s.first {
        if a.last + 1 == s.first {
            let x = a.right;
            let y = s.right;
            return segments::same_right(x, y);
        }
    }
    false
}

impl Builder {
    // Puts a part behind the others, where there is one.
    fn push(&mut self, p: Option<Segment>)
        requires { self.old.count ≤ most_segments }
        ensures { (l : List Segment) → Built self.old l → Built self.new (push_all l (one_or_none p)) }
    {
        let Some(s) = p else {
            return;
        };
        if self.full {
            return;
        }
        if self.count > 0 {
            let newest = self.count - 1;
            let a = self.items[newest];
            if touches(a, s) {
                self.items[newest].last = s.last;
                return;
            }
        }
        if self.count < MOST_SEGMENTS {
            self.items[self.count] = s;
            self.count += 1;
        } else {
            self.full = true;
        }
    }
}

// The parts before the range, what is in it afterwards, and the parts after it.
pub(crate) fn build(segments: &[Segment], c: Change, first: u64, last: u64) -> Builder
    ensures { Built result (edited c first last segments.now) }
{
    let mut r = empty_builder();
    for s in segments {
        r.push(fragment::fragment_before(*s, first));
    }
    match c {
        Change::Grant(slot) => {
            let right = Right::Granted(slot);
            r.push(Some(Segment { first, last, right }));
        }
        Change::Clear => {}
        Change::Recall => {
            for s in segments {
                r.push(fragment::fragment_inside(*s, Change::Recall, first, last));
            }
        }
    }
    for s in segments {
        r.push(fragment::fragment_after(*s, last));
    }
    r
}

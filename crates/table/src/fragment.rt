// The part of one segment before, inside or after a range.
ghost use Rattle.std.specs.Prelude.{◌≡◌};
ghost use Rattle.table.specs.Edits.{after, before, changed_right, inside, unless_none, recalled_of};
ghost use Rattle.table.specs.Builders.{one_or_none};

use crate::change::Change;
use segments::{Right, Segment};

fn recalled(right: Right) -> Right
    ensures { result ≡ recalled_of right }
{
    match right {
        Right::None => Right::None,
        Right::Granted(s) => Right::Recalled(s),
        Right::Recalled(s) => Right::Recalled(s),
    }
}

fn changed(c: Change, right: Right) -> Right
    ensures { result ≡ changed_right c right }
{
    match c {
        Change::Grant(s) => Right::Granted(s),
        Change::Clear => Right::None,
        Change::Recall => recalled(right),
    }
}

#[tactic(auto, unfolding(crate::specs::Edits::unless_none, base::specs::Answer::pick))]
fn keep(s: Segment) -> Option<Segment>
    ensures { one_or_none result ≡ unless_none s }
{
    let right = s.right;
    if segments::same_right(Right::None, right) {
        return None;
    }
    Some(s)
}

#[tactic(auto, unfolding(crate::specs::Edits::before, base::specs::Answer::pick))]
pub(crate) fn fragment_before(s: Segment, first: u64) -> Option<Segment>
    ensures { one_or_none result ≡ before first s }
{
    if s.first < first {
        let last = s.last.min(first - 1);
        let right = s.right;
        return Some(Segment {
            first: s.first,
            last,
            right,
        });
    }
    None
}

#[tactic(auto, unfolding(crate::specs::Edits::inside, base::specs::Answer::pick))]
pub(crate) fn fragment_inside(s: Segment, c: Change, first: u64, last: u64) -> Option<Segment>
    ensures { one_or_none result ≡ inside c first last s }
{
    if s.first <= last {
        if first <= s.last {
            let from = s.first.max(first);
            let to = s.last.min(last);
            let held = s.right;
            let right = changed(c, held);
            return keep(Segment {
                first: from,
                last: to,
                right,
            });
        }
    }
    None
}

#[tactic(auto, unfolding(crate::specs::Edits::after, base::specs::Answer::pick))]
pub(crate) fn fragment_after(s: Segment, last: u64) -> Option<Segment>
    ensures { one_or_none result ≡ after last s }
{
    if last < s.last {
        let first = s.first.max(last + 1);
        let right = s.right;
        return Some(Segment {
            first,
            last: s.last,
            right,
        });
    }
    None
}

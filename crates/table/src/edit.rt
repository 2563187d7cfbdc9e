// An edit of one of a table's lists, where the edit's iomode acts on it.
ghost use Rattle.std.specs.Prelude.{◌≡◌};
ghost use Rattle.segments.specs.Segments.{acts_on, mode_of};
ghost use Rattle.table.specs.Edits.{edited_where};

use crate::builder;
use crate::change::Change;
use segments::{Segments, Span};

// `g` is the list with the number i. None where the edit needs more than 32 segments.
pub fn edit_list(g: &Segments, i: u32, c: Change, s: Span) -> Option<Segments>
    ensures { result ≡ edited_where (acts_on s.iomode (mode_of i)) c s.first s.last g.now }
{
    if !segments::acts_on(s.iomode, i) {
        return Some(*g);
    }
    let r = builder::build(g.used(), c, s.first, s.last);
    if r.full {
        return None;
    }
    let items = r.items;
    Some(Segments {
        items,
        count: r.count,
    })
}

// A counted list: how many items there are, then the items.
ghost use Rattle.std.specs.Prelude.{◌≡◌, ◌≤◌, ℕ, List, length, replicate};
ghost use Rattle.xdr.specs.Parsed.{Parsed};
ghost use Rattle.xdr.specs.CountedLists.{list_at};
ghost use Rattle.xdr.specs.Answers.{parsed_of, parsed_of_list};

use xdr::{Cursor, Read};

// What a list is of.
pub(crate) trait Item: Copy {
    ghost item_at: { List ℕ → ℕ → Parsed Self };

    fn read(s: &[u8], c: Cursor) -> Read<Self>
        ensures { parsed_of result ≡ item_at s.now c.at };
}

// A count from 1 to most, then as many items, which come into the first of the lent entries.
pub(crate) fn read_list<T: Item>(s: &[u8], c: Cursor, most: u32, entries: &mut [T]) -> Read<u32>
    requires { most ≤ length entries.now }
    ensures { (blank : T) → entries.old ≡ replicate most blank
        → parsed_of_list entries.new result ≡ list_at 1 most T.item_at blank s.now c.at }
{
    let (n, first) = xdr::read_count(s, c, 1, most)?;
    let mut d = first;
    // By index: over the part of the entries that takes the items, the proof did not close.
    for i in 0..n as usize {
        let (item, e) = T::read(s, d)?;
        entries[i] = item;
        d = e;
    }
    Ok((n, d))
}

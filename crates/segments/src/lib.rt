// The segments of a table: which bytes have which right, in each iomode.
#![tactic(auto)]

ghost use Rattle.std.specs.Prelude.{◌≡◌, min};
ghost use Rattle.base.specs.Limits.{most_segments};
ghost use Rattle.segments.specs.Segments.{acts_on, empty_table, kind_of, mode_of, list_of, same_right, segments_for};
ghost use Rattle.segments.specs.Segments.{slot_number_of};

use base::{Iomode, MOST_SEGMENTS, SlotNumber};

// The number names the slot of the layout body under which the bytes are held.
#[derive(Clone, Copy)]
pub enum Right {
    None,
    Granted(SlotNumber),
    Recalled(SlotNumber),
}

// The bytes from first to last, both included.
#[derive(Clone, Copy)]
pub struct Segment {
    pub first: u64,
    pub last: u64,
    pub right: Right,
}

// The segments of one iomode, in the first count entries: the core has no heap, and a count from C may be any number.
#[derive(Clone, Copy)]
pub struct Segments {
    pub items: [Segment; MOST_SEGMENTS],
    pub count: usize,
}

impl Segments {
    // Those that the count can mean.
    #[tactic(auto, using(base::proofs::ListLaws::take_capped))]
    pub fn used(&self) -> &[Segment]
        ensures { result.now ≡ list_of self.now }
    {
        let n = used_entries(self.count);
        &self.items[..n]
    }
}

#[derive(Clone, Copy)]
pub struct Table {
    pub read: Segments,
    pub rw: Segments,
}

// The bytes from first to last, both included, in an iomode or, for ANY, in both.
#[derive(Clone, Copy)]
pub struct Span {
    pub iomode: Iomode,
    pub first: u64,
    pub last: u64,
}

// The two lists of a table by number.
pub const READ_LIST: u32 = 0;

pub const RW_LIST: u32 = 1;

// What is in an unused entry.
pub const BLANK: Segment = Segment {
    first: 0,
    last: 0,
    right: Right::None,
};

pub fn kind_of(right: Right) -> u32
    ensures { result ≡ kind_of right }
{
    match right {
        Right::None => 0,
        Right::Granted(_) => 1,
        Right::Recalled(_) => 2,
    }
}

// Slot 0 where there is no right.
pub fn slot_of(right: Right) -> SlotNumber
    ensures { result.0 ≡ slot_number_of right }
{
    match right {
        Right::None => SlotNumber(0),
        Right::Granted(s) => s,
        Right::Recalled(s) => s,
    }
}

pub fn same_right(a: Right, b: Right) -> bool
    ensures { result ≡ same_right a b }
{
    let x = slot_of(a);
    let y = slot_of(b);
    (kind_of(a) == kind_of(b)) & (x.0 == y.0)
}

pub fn empty_table() -> Table
    ensures { result ≡ empty_table }
{
    let none = Segments {
        items: [BLANK; MOST_SEGMENTS],
        count: 0,
    };
    Table {
        read: none,
        rw: none,
    }
}

// How many of the 32 entries a count can mean.
pub fn used_entries(count: usize) -> usize
    ensures { result ≡ min count most_segments }
{
    count.min(MOST_SEGMENTS)
}

// The list with a number; any number but 0 is that of RW.
pub fn list_in(t: Table, i: u32) -> Segments
    ensures { result ≡ segments_for t (mode_of i) }
{
    if i == READ_LIST {
        return t.read;
    }
    t.rw
}

// Whether an iomode acts on the list with a number: "ANY acts on both".
pub fn acts_on(iomode: Iomode, i: u32) -> bool
    ensures { result ≡ acts_on iomode (mode_of i) }
{
    match iomode {
        Iomode::Read => i == READ_LIST,
        Iomode::ReadWrite => i != READ_LIST,
        Iomode::Any => true,
    }
}

// The table that a record stands for.
ghost use Rattle.std.specs.Prelude.{◌≡◌};
ghost use Rattle.abi_table.specs.Answers.{option_of};
ghost use Rattle.abi_table.specs.TableRecords.{right_of_numbers, segment_in, table_in};

use crate::types::{SegmentRecord, TableRecord};
use base::{MOST_SEGMENTS, SlotNumber};
use segments::{BLANK, Right, Segment, Segments, Table};

#[tactic(auto, unfolding(crate::specs::TableRecords::right_of_numbers, base::specs::Answer::pick))]
fn right_of(kind: u32, slot: u32) -> Option<Right>
    ensures { result ≡ option_of (right_of_numbers kind slot) }
{
    match kind {
        0 if slot == 0 => Some(Right::None),
        1 => Some(Right::Granted(SlotNumber(slot))),
        2 => Some(Right::Recalled(SlotNumber(slot))),
        _ => None,
    }
}

#[tactic(auto, unfolding(crate::specs::TableRecords::segment_in, base::specs::Answer::given))]
fn segment_of(s: SegmentRecord) -> Option<Segment>
    ensures { result ≡ option_of (segment_in s) }
{
    let right = right_of(s.kind, s.slot)?;
    Some(Segment {
        first: s.first,
        last: s.last,
        right,
    })
}

// None where the record stands for no table.
pub fn table_of(r: TableRecord) -> Option<Table>
    ensures { result ≡ option_of (table_in r) }
{
    let mut read = Segments {
        items: [BLANK; MOST_SEGMENTS],
        count: r.read_count as usize,
    };
    let mut rw = Segments {
        items: [BLANK; MOST_SEGMENTS],
        count: r.rw_count as usize,
    };
    for i in 0..MOST_SEGMENTS {
        let a = r.read[i];
        read.items[i] = segment_of(a)?;
        let b = r.rw[i];
        rw.items[i] = segment_of(b)?;
    }
    Some(Table { read, rw })
}

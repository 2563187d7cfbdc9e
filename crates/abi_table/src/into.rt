// The record of a table.
ghost use Rattle.std.specs.Prelude.{◌≡◌};
ghost use Rattle.abi_table.specs.TableRecords.{record_of, segment_record};

use crate::types::{SegmentRecord, TableRecord, ZEROS};
use base::MOST_SEGMENTS;
use segments::{Segment, Table};

fn segment_record(s: Segment) -> SegmentRecord
    ensures { result ≡ segment_record s }
{
    SegmentRecord {
        first: s.first,
        last: s.last,
        kind: segments::kind_of(s.right),
        slot: segments::slot_of(s.right).0,
    }
}

pub fn record_of(t: Table) -> TableRecord
    ensures { result ≡ record_of t }
{
    let g = t.read;
    let h = t.rw;
    let mut r = TableRecord {
        read: [ZEROS; MOST_SEGMENTS],
        rw: [ZEROS; MOST_SEGMENTS],
        read_count: g.count as u64,
        rw_count: h.count as u64,
    };
    for i in 0..MOST_SEGMENTS {
        let a = g.items[i];
        r.read[i] = segment_record(a);
        let b = h.items[i];
        r.rw[i] = segment_record(b);
    }
    r
}

// The records, laid out as C lays them out.
use base::MOST_SEGMENTS;

// The kind of a right is 0 for none, 1 for granted, 2 for recalled; with none the slot is 0.
#[repr(C)]
#[derive(Clone, Copy)]
pub struct SegmentRecord {
    pub first: u64,
    pub last: u64,
    pub kind: u32,
    pub slot: u32,
}

// All 32 entries of each iomode are there, used or not.
#[repr(C)]
#[derive(Clone, Copy)]
pub struct TableRecord {
    pub read: [SegmentRecord; MOST_SEGMENTS],
    pub rw: [SegmentRecord; MOST_SEGMENTS],
    pub read_count: u64,
    pub rw_count: u64,
}

pub(crate) const ZEROS: SegmentRecord = SegmentRecord {
    first: 0,
    last: 0,
    kind: 0,
    slot: 0,
};

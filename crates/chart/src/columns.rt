// The columns of a chart: the pieces that the core answers from an offset on, one after the other.
use base::{LARGEST_SUM, StripeNumber};
use drawing::{Column, Columns};
use segments::Table;

const NO_COLUMN: Column = Column {
    offset: 0,
    length: 0,
    stripe: StripeNumber(0),
    mirrors: 0,
};

// How many bytes from an offset without a right on have none: up to the layout's first byte, or as far as any
// request reaches.
fn gap(first: u64, offset: u64) -> u64 {
    if offset < first {
        return first - offset;
    }
    LARGEST_SUM - offset
}

// The core is asked for the longest request that starts here.
fn column_at(t: Table, store: &[u8], write: bool, first: u64, offset: u64) -> Column {
    match route::locate(t, store, write, offset, LARGEST_SUM - offset) {
        Ok(p) => Column {
            offset,
            length: p.length,
            stripe: p.stripe,
            mirrors: p.mirrors,
        },
        Err(_) => Column {
            offset,
            length: gap(first, offset),
            stripe: StripeNumber(0),
            mirrors: 0,
        },
    }
}

// The offset after a column. A chart ends where the longest request does, before the last byte of all.
fn next_offset(offset: u64, length: u64) -> u64 {
    if LARGEST_SUM - offset < length {
        return LARGEST_SUM;
    }
    offset + length
}

// At most so many columns of a layout whose first byte is given, from an offset on.
pub(crate) fn find_columns(
    t: Table,
    store: &[u8],
    write: bool,
    first: u64,
    from: u64,
    units: usize,
) -> Columns {
    let mut items = [NO_COLUMN; 64];
    let mut offset = from;
    for i in 0..64 {
        if units <= i || offset == LARGEST_SUM {
            return Columns { items, count: i };
        }
        let c = column_at(t, store, write, first, offset);
        items[i] = c;
        offset = next_offset(offset, c.length);
    }
    Columns { items, count: 64 }
}

// The cases that corrupt the table and the store, and bring them back.
use crate::state::{State, start};
use base::{MOST_SEGMENTS, SlotNumber};
use segments::{Right, Segment, Segments, Table};
use std::io;
use std::io::Write;

// The payload has: offset, value.
pub(crate) fn set_byte(out: &mut impl Write, payload: &[u8], store: &mut [u8]) -> io::Result<()> {
    let index = octets::le4(payload, 0) as usize;
    if store.len() <= index {
        return Ok(());
    }
    if payload.len() != 5 {
        return Ok(());
    }
    store[index] = payload[4];
    write!(out, "set-byte done")
}

fn right_of(right: u32, slot: u32) -> Right {
    match right {
        1 => Right::Granted(SlotNumber(slot)),
        2 => Right::Recalled(SlotNumber(slot)),
        _ => Right::None,
    }
}

fn is_blank(s: &Segment) -> bool {
    s.first == 0 && s.last == 0 && matches!(s.right, Right::None)
}

// The number of entries before the first blank one.
fn count_of(items: &[Segment]) -> usize {
    items.iter().position(is_blank).unwrap_or(items.len())
}

// An index past the last one changes nothing.
fn with_entry(g: Segments, index: usize, s: Segment) -> Segments {
    if MOST_SEGMENTS <= index {
        return g;
    }
    let mut items = g.items;
    items[index] = s;
    let count = count_of(&items);
    Segments { items, count }
}

// The payload has: iomode, index, first, last, right, slot.
fn segment_of(payload: &[u8]) -> Segment {
    Segment {
        first: octets::le8(payload, 8),
        last: octets::le8(payload, 16),
        right: right_of(octets::le4(payload, 24), octets::le4(payload, 28)),
    }
}

fn with_segment(t: Table, iomode: u32, index: usize, s: Segment) -> Table {
    let Table { read, rw } = t;
    if iomode == 1 {
        return Table {
            read: with_entry(read, index, s),
            rw,
        };
    }
    Table {
        read,
        rw: with_entry(rw, index, s),
    }
}

pub(crate) fn set_segment(out: &mut impl Write, payload: &[u8], state: State) -> io::Result<State> {
    let iomode = octets::le4(payload, 0);
    let index = octets::le4(payload, 4) as usize;
    let table = with_segment(state.table, iomode, index, segment_of(payload));
    write!(out, "set-segment done")?;
    Ok(State {
        table,
        borrowed: state.borrowed,
    })
}

pub(crate) fn reset(out: &mut impl Write, store: &mut [u8]) -> io::Result<State> {
    store.fill(0);
    write!(out, "reset done")?;
    Ok(start())
}

pub(crate) fn set_borrowed(
    out: &mut impl Write,
    payload: &[u8],
    state: State,
) -> io::Result<State> {
    write!(out, "lend done")?;
    Ok(State {
        table: state.table,
        borrowed: octets::le4(payload, 0) as usize,
    })
}

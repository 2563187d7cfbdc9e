// The four events. Each borrows the first bytes of the store.
use crate::state::State;
use base::Refusal;
use events::{Event, Numbers};
use print::Refused;
use std::io;
use std::io::Write;

fn name_of(kind: u32) -> &'static str {
    match kind {
        1 => "grant",
        4 => "recall",
        5 => "revoke",
        _ => "return",
    }
}

fn print_verdict(out: &mut impl Write, kind: u32, v: Result<(), Refusal>) -> io::Result<()> {
    let name = name_of(kind);
    match v {
        Ok(()) => write!(out, "{name} accepted"),
        Err(e) => write!(out, "{name}{}", Refused(e)),
    }
}

// The payload of a recall or a return has: offset, length, iomode.
fn numbers_in(payload: &[u8]) -> Numbers {
    Numbers {
        offset: octets::le8(payload, 0),
        len: octets::le8(payload, 8),
        iomode: octets::le4(payload, 16),
    }
}

fn event_of(kind: u32, payload: &[u8]) -> Event {
    match kind {
        1 => Event::Grant,
        4 => Event::Recall(numbers_in(payload)),
        5 => Event::Revoke,
        _ => Event::Return(numbers_in(payload)),
    }
}

pub(crate) fn take_event(
    out: &mut impl Write,
    kind: u32,
    payload: &[u8],
    state: State,
    store: &mut [u8],
) -> io::Result<State> {
    let borrowed = state.borrowed;
    if store.len() < borrowed {
        return Ok(state);
    }
    let event = event_of(kind, payload);
    let o = events::apply(state.table, &mut store[..borrowed], event, payload);
    print_verdict(out, kind, o.verdict)?;
    Ok(State {
        table: o.table,
        borrowed,
    })
}

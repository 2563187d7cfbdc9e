// Reads a case file from standard input, puts each case to the core, and writes one line for each.
#![tactic(auto)]

mod case;
mod corrupt_case;
mod event_case;
mod form;
mod state;

use base::STORE_SIZE;
use case::Case;
use state::State;
use std::io;
use std::io::{BufRead, BufWriter, Write};

// A case that keeps nothing.
fn print_wire_case(out: &mut impl Write, kind: u32, payload: &[u8]) -> io::Result<()> {
    match kind {
        64 => wire_cases::print_layout(out, payload),
        65 => wire_cases::print_layout4(out, payload),
        66 => wire_cases::print_device(out, payload),
        67 => wire_cases::print_bind(out, payload),
        68 => wire_cases::print_report_read(out, payload),
        69 => wire_cases::print_report_write(out, payload),
        _ => wire_cases::print_return_write(out, payload),
    }
}

// A case that leaves the table as it is.
fn print_case(
    out: &mut impl Write,
    kind: u32,
    payload: &[u8],
    state: &State,
    store: &mut [u8],
) -> io::Result<()> {
    match kind {
        70 | 71 => table_cases::print_locate(
            out,
            kind == 71,
            payload,
            state.table,
            store,
            state.borrowed,
        ),
        72 => table_cases::print_table(out, &state.table),
        73 => table_cases::print_store(out, store),
        74 => corrupt_case::set_byte(out, payload, store),
        _ => print_wire_case(out, kind, payload),
    }
}

// Puts a case to the core, and writes its line but for the end. The payload has the kind's form.
fn take_case(
    out: &mut impl Write,
    kind: u32,
    payload: &[u8],
    state: State,
    store: &mut [u8],
) -> io::Result<State> {
    match kind {
        1 | 4 | 5 | 9 => event_case::take_event(out, kind, payload, state, store),
        75 => corrupt_case::set_segment(out, payload, state),
        76 => corrupt_case::reset(out, store),
        77 => corrupt_case::set_borrowed(out, payload, state),
        _ => {
            print_case(out, kind, payload, &state, store)?;
            Ok(state)
        }
    }
}

// The run's last line.
fn print_last(out: &mut impl Write, r: Case, offset: u64) -> io::Result<()> {
    let word = match r {
        Case::End => "end",
        _ => "stop",
    };
    writeln!(out, "{word} {offset}")
}

// A proved loop has to end, and nothing says that a file does. So the offset is bounded, by more than any file has.
fn answer_file(input: &mut impl BufRead, out: &mut impl Write) -> io::Result<()> {
    let mut payload = [0u8; 16000];
    let mut store = [0u8; STORE_SIZE];
    let mut state = state::start();
    let mut offset: u64 = 0;
    while offset < 9223372036854775808 {
        let r = case::read_case(input, &mut payload)?;
        let Case::Of(kind, length) = r else {
            return print_last(out, r, offset);
        };
        let size = length as usize;
        if payload.len() < size {
            return Ok(());
        }
        state = take_case(out, kind, &payload[..size], state, &mut store)?;
        writeln!(out)?;
        offset += case::HEAD + length as u64;
    }
    Ok(())
}

fn main(rt: HostRuntime) -> io::Result<()> {
    let mut out = BufWriter::new(rt.alloc(), io::writer(&rt))?;
    answer_file(&mut rt.reader(), &mut out)?;
    out.flush()
}

// Draws the stripe chart of a layout4 in a file: chart FILE [FIRST [UNITS]] [svg]
// FIRST is the first offset shown, UNITS how many stripe units; svg draws a picture instead of text.
#![tactic(auto)]

mod arguments;
mod columns;
mod file;
mod refusal_text;

use arguments::Options;
use base::{Iomode, MOST_STARTS, Refusal, STORE_SIZE};
use columns::find_columns;
use drawing::ChartInput;
use events::Event;
use layout::Summary;
use layout4::Layout4;
use refusal_text::print_refused;
use segments::Table;
use std::io;
use std::io::{BufWriter, Write};
use std::rt::{Env, Files};

// The offset that a chart begins at: the one asked for, else the layout's own.
fn first_offset(options: Options, own: u64) -> u64 {
    if options.numbers == 0 {
        return own;
    }
    options.first
}

// How many columns a chart has at most: as many as asked for, else enough that each server of a mirror has one.
fn units_shown(options: Options, servers: u32) -> usize {
    if options.numbers == 2 {
        return options.units;
    }
    options.units.max(servers as usize)
}

fn writes(iomode: &Iomode) -> bool {
    !matches!(iomode, Iomode::Read)
}

fn draw(
    out: &mut impl Write,
    bytes: &[u8],
    store: &[u8],
    t: Table,
    layout: Layout4,
    summary: Summary,
    starts: [u16; MOST_STARTS],
    options: Options,
) -> io::Result<()> {
    let from = first_offset(options, layout.offset);
    let units = units_shown(options, summary.servers);
    let columns = find_columns(t, store, writes(&layout.iomode), layout.offset, from, units);
    if columns.count == 0 {
        return writeln!(
            out,
            "nothing to draw: no I/O reaches byte 18446744073709551615"
        );
    }
    let s = ChartInput {
        layout,
        summary,
        starts,
        columns,
    };
    if options.svg {
        return drawing::draw_picture(out, bytes, &s);
    }
    drawing::draw_text(out, bytes, &s)
}

// The layout is granted to an empty table with an empty store, and the chart shows what is answered from these.
fn chart(out: &mut impl Write, bytes: &[u8], options: Options) -> io::Result<()> {
    let mut store = [0u8; STORE_SIZE];
    let o = events::apply(segments::empty_table(), &mut store, Event::Grant, bytes);
    if let Err(e) = o.verdict {
        return print_refused(out, e);
    }
    let r = layout4::read_layout4(bytes);
    match r.answer {
        Ok((layout, summary)) => draw(
            out, bytes, &store, o.table, layout, summary, r.starts, options,
        ),
        Err(e) => print_refused(out, Refusal::from(e)),
    }
}

// The longest layout4 has 4,120 bytes. Of a longer file the bytes that the buffer holds are refused just as all of
// them are.
fn run<R: Env + Files + Eprint + Alloc>(rt: &R, out: &mut impl Write) -> io::Result<()> {
    let Some(options) = arguments::read_options(rt) else {
        return arguments::print_usage(out);
    };
    let mut bytes = [0u8; 8192];
    let Some(n) = file::read_file(rt, &mut bytes)? else {
        return Ok(());
    };
    if bytes.len() < n {
        return Ok(());
    }
    chart(out, &bytes[..n], options)
}

fn main(rt: HostRuntime) -> io::Result<()> {
    let mut out = BufWriter::new(rt.alloc(), io::writer(&rt))?;
    run(&rt, &mut out)?;
    out.flush()
}

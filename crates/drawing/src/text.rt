// The chart in text: servers down the side, offsets along the top.
use crate::caption::{GAP_KEY, print_box_key, print_range, print_summary};
use crate::columns::{Column, Columns, goes_to, widest};
use crate::input::{ChartInput, efficiency_at, server_at};
use base::{MirrorNumber, StripeNumber};
use print::device_id;
use std::io;
use std::io::Write;

// What a row shows of each column.
#[derive(Clone, Copy)]
pub enum Row {
    Offsets,
    Lengths,
    // The server of a mirror and a stripe.
    Server(MirrorNumber, StripeNumber),
}

fn print_length(out: &mut impl Write, c: &Column, width: usize) -> io::Result<()> {
    if c.mirrors == 0 {
        return write!(out, "{:>width$}", "");
    }
    write!(out, "{:>width$}", c.length)
}

fn print_box(
    out: &mut impl Write,
    c: &Column,
    m: MirrorNumber,
    k: StripeNumber,
    width: usize,
) -> io::Result<()> {
    if goes_to(c, m, k) {
        return write!(out, "{:#>width$}", "");
    }
    write!(out, "{:>width$}", "")
}

fn print_cell(out: &mut impl Write, row: Row, c: &Column, width: usize) -> io::Result<()> {
    write!(out, " | ")?;
    match row {
        Row::Offsets => write!(out, "{:>width$}", c.offset),
        Row::Lengths => print_length(out, c, width),
        Row::Server(m, k) => print_box(out, c, m, k, width),
    }
}

fn print_cells(out: &mut impl Write, row: Row, columns: &Columns, width: usize) -> io::Result<()> {
    for c in columns.shown() {
        print_cell(out, row, c, width)?;
    }
    writeln!(out, " |")
}

fn print_server(
    out: &mut impl Write,
    bytes: &[u8],
    s: &ChartInput,
    m: MirrorNumber,
    k: StripeNumber,
    width: usize,
) -> io::Result<()> {
    let at = server_at(s, m, k);
    write!(
        out,
        "{:>6}{:>8}  {}{:>12}        ",
        m.0,
        k.0,
        device_id(bytes, at),
        efficiency_at(bytes, at)
    )?;
    print_cells(out, Row::Server(m, k), &s.columns, width)
}

fn print_mirror(
    out: &mut impl Write,
    bytes: &[u8],
    s: &ChartInput,
    m: MirrorNumber,
    width: usize,
) -> io::Result<()> {
    for k in 0..s.summary.servers {
        print_server(out, bytes, s, m, StripeNumber(k), width)?;
    }
    Ok(())
}

fn print_mirrors(
    out: &mut impl Write,
    bytes: &[u8],
    s: &ChartInput,
    width: usize,
) -> io::Result<()> {
    for m in 0..s.summary.mirrors {
        print_mirror(out, bytes, s, MirrorNumber(m), width)?;
    }
    Ok(())
}

fn print_head(out: &mut impl Write, s: &ChartInput) -> io::Result<()> {
    print_range(out, &s.layout)?;
    writeln!(out)?;
    print_summary(out, &s.summary)?;
    writeln!(out)?;
    print_box_key(out, &s.layout.iomode)?;
    writeln!(out, "; {GAP_KEY}\n")
}

pub fn draw_text(out: &mut impl Write, bytes: &[u8], s: &ChartInput) -> io::Result<()> {
    let width = widest(&s.columns) as usize;
    print_head(out, s)?;
    write!(
        out,
        "mirror  stripe  device id                         efficiency  offset",
    )?;
    print_cells(out, Row::Offsets, &s.columns, width)?;
    print_mirrors(out, bytes, s, width)?;
    write!(
        out,
        "                                                               bytes",
    )?;
    print_cells(out, Row::Lengths, &s.columns, width)
}

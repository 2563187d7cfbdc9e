// The chart as an SVG picture: a lane for each server, a coloured box for each stripe unit that goes there.
use crate::caption::{GAP_KEY, print_box_key, print_range, print_summary};
use crate::columns::{Column, Columns, goes_to, widest};
use crate::input::{ChartInput, efficiency_at, server_at};
use base::{MirrorNumber, StripeNumber};
use layout::Summary;
use print::device_id;
use std::io;
use std::io::Write;
use svg::{
    print_box, print_edge, print_entry, print_label, print_lane, print_line, print_size,
    print_style,
};

// In pixels: where the lanes begin, the size of a column and of a lane, what is left free below a mirror. Left of the
// lanes the longest label has 42 characters: its efficiency has ten digits.
const LEFT: u64 = 368;

const COLUMN: u64 = 72;

const LANE: u64 = 42;

const BETWEEN: u64 = 18;

// What a layer shows of each column, and how far down.
#[derive(Clone, Copy)]
pub enum Layer {
    Offsets(u64),
    Lengths(u64),
    // Lines from the first point to the second.
    Lines(u64, u64),
    // The boxes of a mirror's and a stripe's server.
    Boxes(MirrorNumber, StripeNumber, u64),
}

// A coordinate further on. No picture reaches the largest number.
fn add_capped(value: u64, by: u64) -> u64 {
    value.checked_add(by).unwrap_or(value)
}

fn print_mark(out: &mut impl Write, layer: Layer, c: &Column, x: u64) -> io::Result<()> {
    match layer {
        Layer::Offsets(y) => print_label(out, add_capped(x, 10), y, b"-40", c.offset),
        Layer::Lengths(y) if c.mirrors != 0 => print_label(
            out,
            add_capped(x, 10),
            y,
            b"40",
            c.length,
        ),
        Layer::Lines(from, to) => print_line(out, x, from, to),
        Layer::Boxes(m, k, y) if goes_to(c, m, k) => {
            let x = add_capped(x, 3);
            print_box(out, x, y, c.offset, c.length, m.0 as u64, c.stripe.0 as u64)
        }
        Layer::Lengths(_) | Layer::Boxes(..) => Ok(()),
    }
}

// A layer, column after column; the coordinate after the last column.
fn print_layer(out: &mut impl Write, layer: Layer, columns: &Columns) -> io::Result<u64> {
    let mut x = LEFT;
    for c in columns.shown() {
        print_mark(out, layer, c, x)?;
        x = add_capped(x, COLUMN);
    }
    Ok(x)
}

// How long the lanes are.
fn lane_width(columns: &Columns) -> u64 {
    let mut width: u64 = 0;
    for _ in 0..columns.count {
        width = add_capped(width, COLUMN);
    }
    width
}

// How far down and to the right a slanting label of so many digits reaches.
fn label_room(digits: u64) -> u64 {
    let mut room: u64 = 24;
    for _ in 0..digits {
        room = add_capped(room, 5);
    }
    room
}

// The coordinate of the lanes' lower end.
fn lower_end(summary: &Summary, top: u64) -> u64 {
    let mut y = top;
    for _ in 0..summary.mirrors {
        y = add_capped(y, summary.servers as u64 * LANE);
        y = add_capped(y, BETWEEN);
    }
    y
}

fn print_name(
    out: &mut impl Write,
    bytes: &[u8],
    s: &ChartInput,
    m: MirrorNumber,
    k: StripeNumber,
    y: u64,
) -> io::Result<()> {
    let at = server_at(s, m, k);
    writeln!(
        out,
        "<text x=\"28\" y=\"{}\">mirror {}, stripe {}, efficiency {}</text>",
        add_capped(y, 15),
        m.0,
        k.0,
        efficiency_at(bytes, at)
    )?;
    writeln!(
        out,
        "<text class=\"mono\" x=\"28\" y=\"{}\">device {}</text>",
        add_capped(y, 31),
        device_id(bytes, at)
    )
}

fn print_server(
    out: &mut impl Write,
    bytes: &[u8],
    s: &ChartInput,
    m: MirrorNumber,
    k: StripeNumber,
    y: u64,
    width: u64,
) -> io::Result<()> {
    print_name(out, bytes, s, m, k, y)?;
    print_lane(out, LEFT, y, width)?;
    print_layer(out, Layer::Boxes(m, k, y), &s.columns)?;
    Ok(())
}

// The lanes of a mirror, from a coordinate downwards; the coordinate after them.
fn print_mirror(
    out: &mut impl Write,
    bytes: &[u8],
    s: &ChartInput,
    m: MirrorNumber,
    from: u64,
    width: u64,
) -> io::Result<u64> {
    let mut y = from;
    for k in 0..s.summary.servers {
        print_server(out, bytes, s, m, StripeNumber(k), y, width)?;
        y = add_capped(y, LANE);
    }
    Ok(add_capped(y, BETWEEN))
}

fn print_mirrors(
    out: &mut impl Write,
    bytes: &[u8],
    s: &ChartInput,
    top: u64,
    width: u64,
) -> io::Result<()> {
    let mut y = top;
    for m in 0..s.summary.mirrors {
        y = print_mirror(out, bytes, s, MirrorNumber(m), y, width)?;
    }
    Ok(())
}

// Of the lines here the longest has 700 pixels, in a wide font.
fn print_head(out: &mut impl Write, s: &ChartInput) -> io::Result<()> {
    writeln!(
        out,
        "<rect width=\"100%\" height=\"100%\" fill=\"#ffffff\"/>"
    )?;
    write!(
        out,
        "<text class=\"title\" x=\"28\" y=\"46\">Stripe chart</text>\n<text x=\"28\" y=\"76\">"
    )?;
    print_range(out, &s.layout)?;
    write!(out, "</text>\n<text x=\"28\" y=\"98\">")?;
    print_summary(out, &s.summary)?;
    write!(out, "</text>\n<text x=\"28\" y=\"120\">")?;
    print_box_key(out, &s.layout.iomode)?;
    writeln!(out, "</text>\n<text x=\"28\" y=\"142\">{GAP_KEY}</text>")
}

// The legend, eight entries a line.
fn print_legend(out: &mut impl Write, servers: u32, from: u64) -> io::Result<()> {
    let mut x: u64 = 28;
    let mut y = from;
    for k in 0..servers {
        if k == 8 {
            x = 28;
            y = add_capped(y, 28);
        }
        print_entry(out, k as u64, x, y, add_capped(x, 26), add_capped(y, 14))?;
        x = add_capped(x, 104);
    }
    Ok(())
}

// The columns' lines, offsets and lengths, between the lanes' upper and lower ends.
fn print_columns(
    out: &mut impl Write,
    columns: &Columns,
    right: u64,
    top: u64,
    lower: u64,
) -> io::Result<()> {
    let to = add_capped(lower, 4);
    print_layer(out, Layer::Lines(top, to), columns)?;
    print_line(out, right, top, to)?;
    print_edge(out, b"offset", LEFT - 12, top)?;
    print_layer(out, Layer::Offsets(top), columns)?;
    print_edge(out, b"bytes", LEFT - 12, add_capped(lower, 20))?;
    print_layer(out, Layer::Lengths(add_capped(lower, 20)), columns)?;
    Ok(())
}

pub fn draw_picture(out: &mut impl Write, bytes: &[u8], s: &ChartInput) -> io::Result<()> {
    let width = lane_width(&s.columns);
    let right = add_capped(LEFT, width);
    let room = label_room(widest(&s.columns));
    let top = add_capped(room, 140);
    let lanes = add_capped(top, 16);
    let lower = lower_end(&s.summary, lanes);
    let legend = add_capped(add_capped(lower, 30), room);
    print_size(
        out,
        add_capped(right, room).max(900),
        add_capped(legend, 74),
    )?;
    print_style(out)?;
    print_head(out, s)?;
    print_columns(out, &s.columns, right, top, lower)?;
    print_mirrors(out, bytes, s, lanes, width)?;
    print_legend(out, s.summary.servers, legend)?;
    writeln!(out, "</svg>")
}

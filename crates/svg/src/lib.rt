// The marks of a stripe chart as an SVG picture.
#![tactic(auto)]

use std::io;
use std::io::Write;

// The picture's beginning.
pub fn print_size(out: &mut impl Write, width: u64, height: u64) -> io::Result<()> {
    write!(
        out,
        "<svg xmlns=\"http://www.w3.org/2000/svg\" width=\"{width}\" height=\"{height}\""
    )?;
    writeln!(out, " viewBox=\"0 0 {width} {height}\">")
}

// One colour a stripe.
pub fn print_style(out: &mut impl Write) -> io::Result<()> {
    out.write_all(b"<style>\ntext{font:14px 'DejaVu Sans',Verdana,sans-serif;fill:#1f2937}\n")?;
    out.write_all(b".title{font-size:26px;font-weight:bold}\n")?;
    out.write_all(b".mono{font:12px 'DejaVu Sans Mono',Menlo,Consolas,monospace;fill:#4b5563}\n")?;
    out.write_all(b".lane{fill:#f3f4f6}.line{stroke:#d1d5db;fill:none}\n")?;
    out.write_all(b".s0{fill:#0072b2}.s1{fill:#e69f00}.s2{fill:#009e73}.s3{fill:#d55e00}")?;
    out.write_all(b".s4{fill:#56b4e9}.s5{fill:#cc79a7}.s6{fill:#f0e442}.s7{fill:#6b7280}\n")?;
    out.write_all(b".s8{fill:#1f3a93}.s9{fill:#a3600a}.s10{fill:#66c2a5}.s11{fill:#8e1b1b}")?;
    out.write_all(b".s12{fill:#7b5ea7}.s13{fill:#e7a5c9}.s14{fill:#9a9a1f}.s15{fill:#111827}\n")?;
    out.write_all(b"</style>\n")
}

// A slanting label from a point on.
pub fn print_label(out: &mut impl Write, x: u64, y: u64, turned: &[u8], v: u64) -> io::Result<()> {
    write!(
        out,
        "<text class=\"mono\" transform=\"translate({x},{y}) rotate("
    )?;
    out.write_all(turned)?;
    writeln!(out, ")\">{v}</text>")
}

// A line down the chart.
pub fn print_line(out: &mut impl Write, x: u64, from: u64, to: u64) -> io::Result<()> {
    writeln!(out, "<path class=\"line\" d=\"M{x} {from}V{to}\"/>")
}

// A box of a stripe's colour, which a browser names by its bytes when it is pointed at.
pub fn print_box(
    out: &mut impl Write,
    x: u64,
    y: u64,
    offset: u64,
    length: u64,
    m: u64,
    k: u64,
) -> io::Result<()> {
    write!(
        out,
        "<rect class=\"box s{k}\" x=\"{x}\" y=\"{y}\" width=\"66\" height=\"36\" rx=\"5\">"
    )?;
    writeln!(
        out,
        "<title>offset {offset}, bytes {length}, mirror {m}, stripe {k}</title></rect>"
    )
}

// A server's lane, under its boxes.
pub fn print_lane(out: &mut impl Write, x: u64, y: u64, width: u64) -> io::Result<()> {
    writeln!(
        out,
        "<rect class=\"lane\" x=\"{x}\" y=\"{y}\" height=\"36\" width=\"{width}\"/>"
    )
}

// One entry of the legend, and where its words are.
pub fn print_entry(
    out: &mut impl Write,
    k: u64,
    x: u64,
    y: u64,
    words_x: u64,
    words_y: u64,
) -> io::Result<()> {
    write!(
        out,
        "<rect class=\"s{k}\" x=\"{x}\" y=\"{y}\" width=\"18\" height=\"18\" rx=\"4\"/>"
    )?;
    writeln!(
        out,
        "<text x=\"{words_x}\" y=\"{words_y}\">stripe {k}</text>"
    )
}

// The name of what is along an edge; it ends at x.
pub fn print_edge(out: &mut impl Write, name: &[u8], x: u64, y: u64) -> io::Result<()> {
    write!(
        out,
        "<text class=\"mono\" text-anchor=\"end\" x=\"{x}\" y=\"{y}\">"
    )?;
    out.write_all(name)?;
    writeln!(out, "</text>")
}

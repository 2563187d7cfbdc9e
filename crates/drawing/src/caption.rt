// What is over a chart.
use base::Iomode;
use layout::Summary;
use layout4::Layout4;
use std::io;
use std::io::Write;

pub(crate) fn print_range(out: &mut impl Write, l: &Layout4) -> io::Result<()> {
    let name = match &l.iomode {
        Iomode::Read => "READ",
        Iomode::ReadWrite => "RW",
        Iomode::Any => "ANY",
    };
    write!(out, "{name} layout of the bytes {} to {}", l.offset, l.last)
}

pub(crate) fn print_summary(out: &mut impl Write, s: &Summary) -> io::Result<()> {
    write!(
        out,
        "stripe unit {}, mirrors {}, servers in each {}, flags {}",
        s.unit, s.mirrors, s.servers, s.flags
    )
}

// What a box means.
pub(crate) fn print_box_key(out: &mut impl Write, iomode: &Iomode) -> io::Result<()> {
    let done = match iomode {
        Iomode::Read => "read from",
        _ => "written to",
    };
    write!(
        out,
        "a box: the bytes from the offset above it, as many as stand below it, are {done} that server"
    )
}

// What a column without one means.
pub(crate) const GAP_KEY: &str = "a column without a box: no right";

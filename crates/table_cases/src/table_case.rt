// The table.
use print::between;
use segments::{Right, Segments, Table};
use std::io::Write;
use std::{fmt, io};

// A right, with the slot that it is for.
#[derive(Drop)]
struct Shown(Right);

impl fmt::Display for Shown {
    fn fmt<W: fmt::Write>(&self, f: &mut fmt::Formatter<W>) -> fmt::Result {
        match self.0 {
            Right::None => write!(f, "n"),
            Right::Granted(s) => write!(f, "g{}", s.0),
            Right::Recalled(s) => write!(f, "r{}", s.0),
        }
    }
}

fn print_segments(out: &mut impl Write, g: &Segments) -> io::Result<()> {
    for (i, s) in g.used().iter().enumerate() {
        let right = Shown(s.right);
        write!(out, "{}{}-{}:{right}", between(",", i), s.first, s.last)?;
    }
    Ok(())
}

pub fn print_table(out: &mut impl Write, t: &Table) -> io::Result<()> {
    write!(out, "table read=")?;
    print_segments(out, &t.read)?;
    write!(out, " rw=")?;
    print_segments(out, &t.rw)
}

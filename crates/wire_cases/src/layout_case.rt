// A layout body.
use base::Refusal;
use layout::Summary;
use print::{Refused, between};
use std::io;
use std::io::Write;

fn print_starts(out: &mut impl Write, starts: &[u16]) -> io::Result<()> {
    write!(out, " starts=")?;
    for (i, start) in starts.iter().enumerate() {
        write!(out, "{}{start}", between(",", i))?;
    }
    Ok(())
}

pub(crate) fn print_summary(out: &mut impl Write, s: &Summary, starts: &[u16]) -> io::Result<()> {
    write!(
        out,
        " unit={} mirrors={} servers={} flags={} hint={}",
        s.unit, s.mirrors, s.servers, s.flags, s.hint
    )?;
    print_starts(out, starts)
}

pub fn print_layout(out: &mut impl Write, payload: &[u8]) -> io::Result<()> {
    let got = layout::read_layout(payload);
    write!(out, "layout-body")?;
    match got.answer {
        Err(e) => write!(out, "{}", Refused(Refusal::from(e))),
        Ok(s) => print_summary(out, &s, &got.starts),
    }
}

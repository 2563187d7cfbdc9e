// A layout4.
use crate::layout_case::print_summary;
use base::Refusal;
use layout4::Layout4;
use print::Refused;
use std::io;
use std::io::Write;

// What is before the body.
fn print_frame(out: &mut impl Write, l: Layout4) -> io::Result<()> {
    write!(
        out,
        " offset={} length={} iomode={} body={}",
        l.offset,
        l.length,
        u32::from(l.iomode),
        l.body.len
    )
}

pub fn print_layout4(out: &mut impl Write, payload: &[u8]) -> io::Result<()> {
    let got = layout4::read_layout4(payload);
    write!(out, "layout4")?;
    match got.answer {
        Err(e) => write!(out, "{}", Refused(Refusal::from(e))),
        Ok((l, s)) => {
            print_frame(out, l)?;
            print_summary(out, &s, &got.starts)
        }
    }
}

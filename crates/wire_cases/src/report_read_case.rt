// A layout return that is read: its error reports, then its statistics.
use crate::statistics_case::print_statistics;
use base::Refusal;
use print::{Hex, Refused, between, device_id};
use report::ReportHead;
use std::io;
use std::io::Write;
use xdr::Cursor;

fn print_errors(out: &mut impl Write, payload: &[u8], first: usize, count: u32) -> io::Result<()> {
    let mut c = Cursor { at: first };
    for i in 0..count as usize {
        let Ok((e, next)) = report::read_error(payload, c) else {
            return Ok(());
        };
        write!(
            out,
            "{}{}/{}/{}",
            between("+", i),
            device_id(payload, e.device),
            e.status,
            e.operation
        )?;
        c = next;
    }
    Ok(())
}

fn print_report(
    out: &mut impl Write,
    payload: &[u8],
    head: &ReportHead,
    first: usize,
) -> io::Result<()> {
    write!(
        out,
        " offset={},length={},stateid={},errors=",
        head.offset,
        head.length,
        Hex(&head.stateid)
    )?;
    print_errors(out, payload, first, head.errors)
}

fn print_reports(
    out: &mut impl Write,
    payload: &[u8],
    heads: &[ReportHead],
    errors_at: &[usize],
    count: u32,
) -> io::Result<()> {
    for (head, first) in heads.iter().zip(errors_at).take(count as usize) {
        print_report(out, payload, head, *first)?;
    }
    Ok(())
}

pub fn print_report_read(out: &mut impl Write, payload: &[u8]) -> io::Result<()> {
    let got = report::read_reports(payload);
    write!(out, "report-read")?;
    match got.answer {
        Err(e) => write!(out, "{}", Refused(Refusal::from(e))),
        Ok(count) => {
            write!(out, " reports={count}")?;
            print_reports(out, payload, &got.heads, &got.errors_at, count)?;
            print_statistics(out, payload)
        }
    }
}

// A layout return that is written. The payload has what a report-write has, then: statistics count, records.
use crate::form::{LONGEST_RETURN_OUTPUT, error_list_at, list_end};
use crate::record::records_of;
use crate::report_write_case::{entries_of, heads_of, list_length, print_answer};
use report::Outgoing;
use std::io;
use std::io::Write;

// The tail of the payload begins with the statistics count.
fn outgoing_of(payload: &[u8], tail: &[u8]) -> Outgoing {
    let count = octets::le4(payload, 4);
    let statistic_count = octets::le4(tail, 0);
    Outgoing {
        count,
        heads: heads_of(payload, count),
        statistic_count,
        statistics: records_of(tail, statistic_count),
    }
}

fn print_output(
    out: &mut impl Write,
    outgoing: Outgoing,
    errors: usize,
    entries: &[u8],
    output: &mut [u8],
) -> io::Result<()> {
    let w = report::write_return(outgoing, errors, entries, output);
    print_answer(out, "return-write", w, output)
}

fn print_writing(
    out: &mut impl Write,
    payload: &[u8],
    outgoing: Outgoing,
    size: usize,
) -> io::Result<()> {
    let mut output = [165u8; LONGEST_RETURN_OUTPUT as usize];
    if output.len() < size {
        return Ok(());
    }
    let entries = entries_of(payload);
    print_output(
        out,
        outgoing,
        list_length(payload),
        &entries,
        &mut output[..size],
    )
}

pub fn print_return_write(out: &mut impl Write, payload: &[u8]) -> io::Result<()> {
    let at = error_list_at(octets::le4(payload, 4));
    let end = list_end(payload, at);
    if payload.len() < end {
        return Ok(());
    }
    let outgoing = outgoing_of(payload, &payload[end..]);
    print_writing(out, payload, outgoing, octets::le4(payload, 0) as usize)
}

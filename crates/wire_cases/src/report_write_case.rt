// Error reports that are written. The payload has: output length, report count, reports, list length, errors.
use crate::arrays::id_at;
use crate::form::{LONGEST_REPORT_OUTPUT, error_list_at, list_end};
use base::{
    DEVICE_ID_SIZE, ERROR_LIST_SIZE, ERROR_SIZE, REPORT_ENTRIES, REPORT_HEAD_SIZE, Refusal,
};
use print::{Hex, Refused};
use report::ReportHead;
use std::io;
use std::io::Write;

fn head_of(r: &[u8]) -> ReportHead {
    ReportHead {
        offset: octets::le8(r, 0),
        length: octets::le8(r, 8),
        stateid: id_at(r, 16),
        errors: octets::le4(r, 32),
    }
}

// The payload's reports; blank in the entries past their count.
pub(crate) fn heads_of(payload: &[u8], count: u32) -> [ReportHead; REPORT_ENTRIES] {
    let mut heads = [head_of(b""); REPORT_ENTRIES];
    for i in 0..REPORT_ENTRIES.min(count as usize) {
        let at = 8 + REPORT_HEAD_SIZE * i;
        let end = at + REPORT_HEAD_SIZE;
        if payload.len() < end {
            return heads;
        }
        heads[i] = head_of(&payload[at..end]);
    }
    heads
}

// The errors in the form in which the core takes them: wire entries.
fn put_entries(records: &mut [u8], errors: &[u8]) {
    for (i, error) in errors.chunks_exact(ERROR_SIZE).enumerate() {
        let (device, numbers) = error.split_at(DEVICE_ID_SIZE);
        let status = octets::le4(numbers, 0);
        let operation = octets::le4(numbers, 4);
        report::put_error(records, ERROR_SIZE * i, device, status, operation);
    }
}

// The errors of a payload in that form; 0 past them.
pub(crate) fn entries_of(payload: &[u8]) -> [u8; ERROR_LIST_SIZE] {
    let mut entries = [0u8; ERROR_LIST_SIZE];
    let at = error_list_at(octets::le4(payload, 4));
    let from = at + 4;
    let end = list_end(payload, at);
    if payload.len() < end {
        return entries;
    }
    put_entries(&mut entries, &payload[from..end]);
    entries
}

// How many errors a payload says it has.
pub(crate) fn list_length(payload: &[u8]) -> usize {
    octets::le4(payload, error_list_at(octets::le4(payload, 4))) as usize
}

// The case's name, the answer and the whole output.
pub(crate) fn print_answer(
    out: &mut impl Write,
    name: &str,
    w: Result<usize, Refusal>,
    output: &[u8],
) -> io::Result<()> {
    match w {
        Ok(n) => write!(out, "{name} length={n}")?,
        Err(e) => write!(out, "{name}{}", Refused(e))?,
    }
    write!(out, " output={}", Hex(output))
}

fn print_output(
    out: &mut impl Write,
    count: u32,
    heads: [ReportHead; REPORT_ENTRIES],
    errors: usize,
    records: &[u8],
    output: &mut [u8],
) -> io::Result<()> {
    let w = report::write_reports(count, heads, errors, records, output);
    print_answer(out, "report-write", w, output)
}

pub fn print_report_write(out: &mut impl Write, payload: &[u8]) -> io::Result<()> {
    let size = octets::le4(payload, 0) as usize;
    let mut output = [165u8; LONGEST_REPORT_OUTPUT as usize];
    if output.len() < size {
        return Ok(());
    }
    let count = octets::le4(payload, 4);
    let heads = heads_of(payload, count);
    let entries = entries_of(payload);
    print_output(
        out,
        count,
        heads,
        list_length(payload),
        &entries,
        &mut output[..size],
    )
}

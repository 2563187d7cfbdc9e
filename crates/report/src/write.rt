// The whole body, written.
ghost use Rattle.std.specs.Prelude.{◌≡◌, length};
ghost use Rattle.report.specs.Writing.{body_written, entries_at, output_after, reports_written, return_written};
ghost use Rattle.base.specs.Lists.{length_of};
ghost use Rattle.base.specs.Results.{answer_of, answered};

use crate::check::{check_reports, total};
use crate::put::put_reports;
use crate::{Outgoing, ReportHead};
use base::{
    ERROR_SIZE, Fault, LONGEST_STATISTICS, MOST_REPORTS, MOST_STATISTICS, REPORT_ENTRIES,
    REPORT_HEAD_SIZE, Refusal,
};

// The body with the bytes of the tail after the reports; `checked` is whether the tail may be written.
fn write_body(
    count: u32,
    heads: [ReportHead; REPORT_ENTRIES],
    list_length: usize,
    errors: &[u8],
    checked: Result<(), Fault>,
    tail: &[u8],
    out: &mut [u8],
) -> Result<usize, Refusal>
    ensures { (answered result ≡ length_of (body_written count heads
        (entries_at list_length errors.now 0) (answer_of checked) tail.now
        (length out.old)))
        × (out.new ≡ output_after out.old (body_written count heads
        (entries_at list_length errors.now 0) (answer_of checked) tail.now
        (length out.old))) }
{
    if MOST_REPORTS < count {
        return Err(Refusal::Fault(Fault::OutsideLimit));
    }
    let n = count as usize;
    let used = &heads[..n];
    if total(used) != list_length as u64 {
        return Err(Refusal::Fault(Fault::OutsideLimit));
    }
    check_reports(used, errors)?;
    checked?;
    let before = 4 + REPORT_HEAD_SIZE * n + ERROR_SIZE * list_length;
    let size = before + tail.len();
    if out.len() < size {
        return Err(Refusal::OutputTooShort);
    }
    octets::put_be4(out, 0, count);
    put_reports(out, used, errors);
    octets::put_bytes(out, before, tail);
    Ok(size)
}

// `errors` holds the error list as wire entries of 24 bytes; `list_length` is how long the list is.
pub fn write_reports(
    count: u32,
    heads: [ReportHead; REPORT_ENTRIES],
    list_length: usize,
    errors: &[u8],
    out: &mut [u8],
) -> Result<usize, Refusal>
    ensures { (answered result ≡ length_of
        (reports_written count heads (entries_at list_length errors.now 0) (length out.old)))
        × (out.new ≡ output_after out.old
        (reports_written count heads (entries_at list_length errors.now 0) (length out.old))) }
{
    let no_statistics = [0u8; 4];
    write_body(
        count,
        heads,
        list_length,
        errors,
        Ok(()),
        &no_statistics,
        out,
    )
}

// `errors` as for `write_reports`. Too many statistics and the other two 8s in front are one answer, so the order of
// these tests is free.
pub fn write_return(
    outgoing: Outgoing,
    list_length: usize,
    errors: &[u8],
    out: &mut [u8],
) -> Result<usize, Refusal>
    ensures { (answered result ≡ length_of
        (return_written outgoing (entries_at list_length errors.now 0) (length out.old)))
        × (out.new ≡ output_after out.old
        (return_written outgoing (entries_at list_length errors.now 0) (length out.old))) }
{
    if MOST_STATISTICS < outgoing.statistic_count {
        return Err(Refusal::Fault(Fault::OutsideLimit));
    }
    let count = outgoing.count;
    let heads = outgoing.heads;
    // Lent, since bytes that are answered would be copied, twice, on 7,000 bytes of stack.
    let mut tail = [0u8; LONGEST_STATISTICS];
    match statistics::encode_into(&mut tail, outgoing.statistic_count, &outgoing.statistics) {
        Ok(n) => write_body(count, heads, list_length, errors, Ok(()), &tail[..n], out),
        Err(e) => write_body(count, heads, list_length, errors, Err(e), b"", out),
    }
}

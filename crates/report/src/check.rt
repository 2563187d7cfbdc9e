// Whether reports may be written: the sum of their error counts, and each report in order.
ghost use Rattle.std.specs.Prelude.{◌≡◌, ◌+◌, ◌*◌, ◌≤◌, length};
ghost use Rattle.base.specs.Limits.{error_size, most_errors, most_errors_in_all, most_reports};
ghost use Rattle.report.specs.Writing.{ErrorCount, ErrorTotal, all_fit, counts};
ghost use Rattle.report.specs.Writing.{checked_report, checked_reports, entries_at};
ghost use Rattle.base.specs.Results.{answer_of};

use crate::error::error_fits;
use crate::{ERROR_OPERATION_OFFSET, ERROR_STATUS_OFFSET, ReportHead};
use base::{ERROR_SIZE, Fault, MOST_ERRORS};

// The error count of a head. A caller cannot see how long an element's stateid is, so this says it.
fn errors_of(head: ReportHead) -> u64
    ensures { ErrorCount head result }
{
    head.errors as u64
}

// The error counts together: at most eight of 32 bits, so 64 bits hold the sum.
pub(crate) fn total(heads: &[ReportHead]) -> u64
    requires { length heads.now ≤ most_reports }
    ensures { ErrorTotal heads.now result }
{
    let mut sum: u64 = 0;
    for head in heads {
        sum += errors_of(*head);
    }
    sum
}

// The n entries from an offset on: each may be written.
fn errors_fit(errors: &[u8], from: usize, n: usize) -> bool
    requires { (from ≤ error_size * most_errors_in_all) × (n ≤ most_errors) }
    ensures { result ≡ all_fit (entries_at n errors.now from) }
{
    let mut at = from;
    for _ in 0..n {
        let status = octets::be4(errors, at + ERROR_STATUS_OFFSET);
        let operation = octets::be4(errors, at + ERROR_OPERATION_OFFSET);
        if !error_fits(status, operation) {
            return false;
        }
        at += ERROR_SIZE;
    }
    true
}

// One report whose first error is at an offset of the entries.
#[tactic(auto, unfolding(crate::specs::Writing::checked_report, base::specs::Answer::given, base::specs::Answer::pick))]
fn check_report(head: ReportHead, errors: &[u8], from: usize) -> Result<(), Fault>
    requires { from ≤ error_size * most_errors_in_all }
    ensures { answer_of result ≡ checked_report head (entries_at head.errors errors.now from) }
{
    base::range_last(head.offset, head.length)?;
    if head.errors < 1 || MOST_ERRORS < head.errors {
        return Err(Fault::OutsideLimit);
    }
    if !errors_fit(errors, from, head.errors as usize) {
        return Err(Fault::ErrorInvalid);
    }
    Ok(())
}

// The reports in order.
pub(crate) fn check_reports(heads: &[ReportHead], errors: &[u8]) -> Result<(), Fault>
    requires { length heads.now ≤ most_reports }
    ensures { answer_of result ≡ checked_reports heads.now (entries_at (counts heads.now) errors.now 0) }
{
    let mut from: usize = 0;
    for report in heads {
        check_report(*report, errors, from)?;
        from += ERROR_SIZE * report.errors as usize;
    }
    Ok(())
}

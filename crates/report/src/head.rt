// One report: what is before its errors, and the errors.
ghost use Rattle.std.specs.Prelude.{◌≡◌, ◌+◌, ◌≤◌, length};
ghost use Rattle.base.specs.Limits.{stateid_size};
ghost use Rattle.octets.specs.Numbers.{bytes_from};
ghost use Rattle.report.specs.Reports.{report_head_at, report_at};
ghost use Rattle.report.specs.Answers.{head_from, parsed_of_report_head, parsed_of_report};

use crate::ReportHead;
use crate::error::read_errors;
use base::{MOST_ERRORS, STATEID_SIZE};
use xdr::{Cursor, Read};

// A `ReportHead` whose stateid is still in the bytes: `stateid` is its offset.
#[derive(Clone, Copy)]
pub struct HeadItem {
    pub offset: u64,
    pub length: u64,
    pub stateid: usize,
    pub errors: u32,
}

// What is before the errors, and where the first error is.
#[derive(Clone, Copy)]
pub struct ReportItem {
    pub head: HeadItem,
    pub errors_at: usize,
}

// Like `sixteen_at` of statistics, which stays inside its crate: a public function asks nothing of its callers.
#[tactic(auto, using(statistics::proofs::PlaceLaws::sixteen_filled))]
fn stateid_at(s: &[u8], at: usize) -> [u8; STATEID_SIZE]
    requires { at + stateid_size ≤ length s.now }
    ensures { result ≡ bytes_from stateid_size s.now at }
{
    let mut stateid = [0u8; STATEID_SIZE];
    octets::put_bytes(&mut stateid, 0, &s[at..at + STATEID_SIZE]);
    stateid
}

pub(crate) fn head_of(s: &[u8], item: HeadItem) -> ReportHead
    requires { item.stateid + stateid_size ≤ length s.now }
    ensures { result ≡ head_from s.now item }
{
    ReportHead {
        offset: item.offset,
        length: item.length,
        stateid: stateid_at(s, item.stateid),
        errors: item.errors,
    }
}

#[tactic(auto, unfolding(crate::specs::Reports::report_head_at, xdr::specs::Parsed::then))]
pub(crate) fn read_report_head(s: &[u8], c: Cursor) -> Read<HeadItem>
    ensures { parsed_of_report_head s.now result ≡ report_head_at s.now c.at }
{
    let (range, c1) = xdr::read_range(s, c)?;
    let (stateid, c2) = xdr::read_bytes(s, c1, STATEID_SIZE)?;
    let (errors, c3) = xdr::read_count(s, c2, 1, MOST_ERRORS)?;
    let item = HeadItem {
        offset: range.offset,
        length: range.length,
        stateid: stateid.start,
        errors,
    };
    Ok((item, c3))
}

#[tactic(auto, using(crate::proofs::ReportLaws::report_ends), unfolding(xdr::specs::Parsed::then))]
pub(crate) fn read_report(s: &[u8], c: Cursor) -> Read<ReportItem>
    ensures { parsed_of_report s.now result ≡ report_at s.now c.at }
{
    let (head, d) = read_report_head(s, c)?;
    let e = read_errors(s, d, head.errors)?;
    Ok((
        ReportItem {
            head,
            errors_at: d.at,
        },
        e,
    ))
}

// The whole body: the reports, then the statistics, and the end.
ghost use Rattle.std.specs.Prelude.{◌≡◌, [], OnOk, replicate};
ghost use Rattle.base.specs.Limits.{most_reports};
ghost use Rattle.base.specs.Answer.{refused as refusedBy};
ghost use Rattle.base.specs.Refusals.{fault_number};
ghost use Rattle.base.specs.Lists.{length_of, members_in};
ghost use Rattle.base.specs.Results.{answer_of};
ghost use Rattle.xdr.specs.Answers.{parsed_of_end};
ghost use Rattle.xdr.specs.Parsed.{end_of};
ghost use Rattle.report.specs.Reports.{report_body, reports_at, statistics_body};
ghost use Rattle.report.specs.Answers.{arrays_from, blank_head, heads_of, offsets_of};
ghost use Rattle.report.specs.Answers.{parsed_of_arrays, statistic_entries};

use crate::ReportHead;
use crate::head::{head_of, read_report};
use base::{Fault, MOST_REPORTS, REPORT_ENTRIES, STATEID_SIZE, STATISTIC_ENTRIES};
use statistics::{NO_STATISTIC, Statistic};
use xdr::{Cursor, Read};

// How many reports there are, their heads, and where the first error of each is. Entries past the count are blank, and
// so is each after a refusal, so the arrays are beside the answer.
#[derive(Clone, Copy)]
pub struct ReportsRead {
    pub answer: Result<u32, Fault>,
    pub heads: [ReportHead; REPORT_ENTRIES],
    pub errors_at: [usize; REPORT_ENTRIES],
}

// How many records of statistics there are, and the records. Entries past the count are blank, and so is each after a
// refusal, so the array is beside the answer.
#[derive(Clone, Copy)]
pub struct StatisticsRead {
    pub answer: Result<u32, Fault>,
    pub statistics: [Statistic; STATISTIC_ENTRIES],
}

// What is in an entry without a report.
const NO_HEAD: ReportHead = ReportHead {
    offset: 0,
    length: 0,
    stateid: [0u8; STATEID_SIZE],
    errors: 0,
};

// The first half: how many reports there are. They are put into blank entries, up to the first that is refused.
fn reports_part(
    s: &[u8],
    heads: &mut [ReportHead; REPORT_ENTRIES],
    errors_at: &mut [usize; REPORT_ENTRIES],
) -> Read<u32>
    requires { (heads.old ≡ replicate most_reports blank_head) × (errors_at.old ≡ replicate most_reports 0) }
    ensures { parsed_of_arrays result heads.new errors_at.new ≡ arrays_from [] (reports_at s.now 0) }
{
    let (n, mut d) = xdr::read_count(s, Cursor { at: 0 }, 0, MOST_REPORTS)?;
    for i in 0..n as usize {
        let (report, next) = read_report(s, d)?;
        heads[i] = head_of(s, report.head);
        errors_at[i] = report.errors_at;
        d = next;
    }
    Ok((n, d))
}

// The whole body judged: how many reports there are, put into blank entries.
fn reports_into(
    s: &[u8],
    heads: &mut [ReportHead; REPORT_ENTRIES],
    errors_at: &mut [usize; REPORT_ENTRIES],
) -> Result<u32, Fault>
    requires { (heads.old ≡ replicate most_reports blank_head) × (errors_at.old ≡ replicate most_reports 0) }
    ensures { (answer_of result ≡ length_of (report_body s.now))
        × OnOk result ((heads.new ≡ heads_of (members_in (report_body s.now)))
        × (errors_at.new ≡ offsets_of (members_in (report_body s.now)))) }
{
    let (n, c) = reports_part(s, heads, errors_at)?;
    let d = statistics::statistics_end(s, c)?;
    if d.at != s.len() {
        return Err(Fault::BytesLeftOver);
    }
    Ok(n)
}

#[tactic(auto, unfolding(base::specs::Lists::padded))]
fn refused(e: Fault) -> ReportsRead
    ensures { (answer_of result.answer ≡ refusedBy (fault_number e)) × (result.heads ≡ heads_of [])
        × (result.errors_at ≡ offsets_of []) }
{
    ReportsRead {
        answer: Err(e),
        heads: [NO_HEAD; REPORT_ENTRIES],
        errors_at: [0usize; REPORT_ENTRIES],
    }
}

// The reports of an `ff_layoutreturn4` body. Its statistics are judged too.
pub fn read_reports(s: &[u8]) -> ReportsRead
    ensures { (answer_of result.answer ≡ length_of (report_body s.now))
        × (result.heads ≡ heads_of (members_in (report_body s.now)))
        × (result.errors_at ≡ offsets_of (members_in (report_body s.now))) }
{
    let mut heads = [NO_HEAD; REPORT_ENTRIES];
    let mut errors_at = [0usize; REPORT_ENTRIES];
    match reports_into(s, &mut heads, &mut errors_at) {
        Ok(count) => ReportsRead {
            answer: Ok(count),
            heads,
            errors_at,
        },
        Err(e) => refused(e),
    }
}

// Where the reports end: every report is judged, none is kept.
fn reports_end(s: &[u8]) -> Result<Cursor, Fault>
    ensures { parsed_of_end result ≡ end_of (reports_at s.now 0) }
{
    let (count, mut d) = xdr::read_count(s, Cursor { at: 0 }, 0, MOST_REPORTS)?;
    for _ in 0..count {
        (_, d) = read_report(s, d)?;
    }
    Ok(d)
}

#[tactic(auto, unfolding(base::specs::Lists::padded))]
fn refused_statistics(e: Fault) -> StatisticsRead
    ensures { (answer_of result.answer ≡ refusedBy (fault_number e))
        × (result.statistics ≡ statistic_entries []) }
{
    StatisticsRead {
        answer: Err(e),
        statistics: [NO_STATISTIC; STATISTIC_ENTRIES],
    }
}

// The statistics of an `ff_layoutreturn4` body. Its reports are judged too.
pub fn read_statistics(s: &[u8]) -> StatisticsRead
    ensures { (answer_of result.answer ≡ length_of (statistics_body s.now))
        × (result.statistics ≡ statistic_entries (members_in (statistics_body s.now))) }
{
    let c = match reports_end(s) {
        Ok(c) => c,
        Err(e) => return refused_statistics(e),
    };
    let list = statistics::read_list(s, c);
    match list.answer {
        Ok((n, end)) if end.at == s.len() => {
            let statistics = list.entries;
            StatisticsRead {
                answer: Ok(n),
                statistics,
            }
        }
        Ok(_) => refused_statistics(Fault::BytesLeftOver),
        Err(e) => refused_statistics(e),
    }
}

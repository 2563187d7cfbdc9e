// The forms of the payloads that have more than a body.
ghost use Rattle.std.specs.Prelude.{◌+◌, ◌*◌, ◌^◌, ◌≤◌, ◌<◌, ◌≡◌};
ghost use Rattle.base.specs.Limits.{most_reports, report_head_size};
ghost use Rattle.wire_cases.specs.Forms.{is_bind, is_report_write, is_return_write};
ghost use Rattle.wire_cases.specs.Forms.{error_list_at, lengths_fit, list_end, records_end};

use base::{
    ERROR_SIZE, MOST_ERRORS_IN_ALL, MOST_REPORTS, MOST_STATISTICS, REPORT_ENTRIES,
    REPORT_HEAD_SIZE, STATISTIC_ENTRIES,
};

// The longest output of a report-write.
pub(crate) const LONGEST_REPORT_OUTPUT: u32 = 4096;

// The longest output of a return-write.
pub(crate) const LONGEST_RETURN_OUTPUT: u32 = 8192;

// The longest error list.
const LONGEST_LIST: u32 = MOST_ERRORS_IN_ALL as u32;

// A record of statistics in a payload.
pub(crate) const RECORD_SIZE: usize = 436;

#[tactic(auto, unfolding(crate::specs::Forms::is_bind))]
pub fn is_bind(payload: &[u8]) -> bool
    ensures { result ≡ is_bind payload.now }
{
    32 + octets::le4(payload, 28) as usize <= payload.len()
}

// Where the list length is after as many reports as there can be.
const LAST_LIST: usize = 8 + REPORT_HEAD_SIZE * REPORT_ENTRIES;

// Where it is after so many reports.
#[tactic(auto, unfolding(crate::specs::Forms::error_list_at))]
pub(crate) fn error_list_at(count: u32) -> usize
    ensures { (result ≡ error_list_at count) × (result ≤ 8 + report_head_size * most_reports) }
{
    if MOST_REPORTS < count {
        return LAST_LIST;
    }
    8 + REPORT_HEAD_SIZE * (count as usize)
}

// Where the errors end whose list length is at an offset.
#[tactic(auto, unfolding(crate::specs::Forms::list_end))]
pub(crate) fn list_end(payload: &[u8], at: usize) -> usize
    requires { at ≤ 8 + report_head_size * most_reports }
    ensures { (result ≡ list_end payload.now at) × (at + 4 ≤ result) × (result < 2 ^ 40) }
{
    at + 4 + ERROR_SIZE * (octets::le4(payload, at) as usize)
}

// Whether the output's length and the error list's are within their limits.
#[tactic(auto, unfolding(crate::specs::Forms::lengths_fit))]
fn lengths_fit(payload: &[u8], longest: u32) -> bool
    ensures { result ≡ lengths_fit longest payload.now }
{
    if longest < octets::le4(payload, 0) {
        return false;
    }
    let at = error_list_at(octets::le4(payload, 4));
    octets::le4(payload, at) <= LONGEST_LIST
}

#[tactic(auto, unfolding(crate::specs::Forms::is_report_write))]
pub fn is_report_write(payload: &[u8]) -> bool
    ensures { result ≡ is_report_write payload.now }
{
    if !lengths_fit(payload, LONGEST_REPORT_OUTPUT) {
        return false;
    }
    let at = error_list_at(octets::le4(payload, 4));
    payload.len() == list_end(payload, at)
}

// Where the records end whose count is at an offset.
#[tactic(auto, unfolding(crate::specs::Forms::records_end))]
fn records_end(payload: &[u8], at: usize) -> usize
    requires { at < 2 ^ 40 }
    ensures { result ≡ records_end payload.now at }
{
    let count = octets::le4(payload, at);
    if MOST_STATISTICS < count {
        return at + 4 + RECORD_SIZE * STATISTIC_ENTRIES;
    }
    at + 4 + RECORD_SIZE * (count as usize)
}

#[tactic(auto, unfolding(crate::specs::Forms::is_return_write))]
pub fn is_return_write(payload: &[u8]) -> bool
    ensures { result ≡ is_return_write payload.now }
{
    if !lengths_fit(payload, LONGEST_RETURN_OUTPUT) {
        return false;
    }
    let at = error_list_at(octets::le4(payload, 4));
    payload.len() == records_end(payload, list_end(payload, at))
}

// What was read of an `ff_layoutreturn4` body: how many error reports, their heads, and where their errors are.
ghost use Rattle.std.specs.Prelude.{◌≡◌};
ghost use Rattle.abi_wire.specs.ReportResults.{answer_of_reports, reports_result};

use base::{REPORT_ENTRIES, STATEID_SIZE};
use report::{ReportHead, ReportsRead};

// The first error of each report is at its offset in errors_at.
#[repr(C)]
#[derive(Clone, Copy)]
pub struct ReportsResult {
    pub refusal: u32,
    pub count: u32,
    pub heads: [ReportHead; REPORT_ENTRIES],
    pub errors_at: [usize; REPORT_ENTRIES],
}

const NO_HEAD: ReportHead = ReportHead {
    offset: 0,
    length: 0,
    stateid: [0u8; STATEID_SIZE],
    errors: 0,
};

#[tactic(auto, unfolding(crate::specs::ReportResults::reports_result, base::specs::Answer::given))]
pub fn reports_result(x: ReportsRead) -> ReportsResult
    ensures { result ≡ reports_result (answer_of_reports x) }
{
    let heads = x.heads;
    let errors_at = x.errors_at;
    match x.answer {
        Err(e) => ReportsResult {
            refusal: u32::from(e),
            count: 0,
            heads: [NO_HEAD; REPORT_ENTRIES],
            errors_at: [0usize; REPORT_ENTRIES],
        },
        Ok(n) => ReportsResult {
            refusal: 0,
            count: n,
            heads,
            errors_at,
        },
    }
}

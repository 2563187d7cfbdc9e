// What was read of an `ff_layoutreturn4` body: how many records of statistics, and the records.
ghost use Rattle.std.specs.Prelude.{◌≡◌};
ghost use Rattle.abi_wire.specs.StatisticsResults.{answer_of_statistics, statistics_result};

use base::STATISTIC_ENTRIES;
use report::StatisticsRead;
use statistics::{NO_STATISTIC, Statistic};

#[repr(C)]
#[derive(Clone, Copy)]
pub struct StatisticsResult {
    pub refusal: u32,
    pub count: u32,
    pub statistics: [Statistic; STATISTIC_ENTRIES],
}

#[tactic(auto, unfolding(crate::specs::StatisticsResults::statistics_result, base::specs::Answer::given))]
pub fn statistics_result(x: StatisticsRead) -> StatisticsResult
    ensures { result ≡ statistics_result (answer_of_statistics x) }
{
    let statistics = x.statistics;
    match x.answer {
        Err(e) => StatisticsResult {
            refusal: u32::from(e),
            count: 0,
            statistics: [NO_STATISTIC; STATISTIC_ENTRIES],
        },
        Ok(n) => StatisticsResult {
            refusal: 0,
            count: n,
            statistics,
        },
    }
}

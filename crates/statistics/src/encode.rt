// What follows the reports of a layout return: the count and the records, as bytes.
ghost use Rattle.std.specs.Prelude.{◌≡◌, OnOk, replicate};
ghost use Rattle.base.specs.Limits.{longest_statistics};
ghost use Rattle.base.specs.Lists.{length_of, members_in, padded};
ghost use Rattle.base.specs.Results.{answer_of};
ghost use Rattle.statistics.specs.Encoding.{encoded};

use crate::Statistic;
use crate::check::check_statistic;
use crate::put::put_statistic;
use base::{Fault, LONGEST_STATISTICS, MOST_STATISTICS, STATISTIC_ENTRIES};

// How many of the bytes are used. The bytes past the length are 0, and so is each after a refusal, so they are beside
// the answer.
#[derive(Clone, Copy)]
pub struct EncodedStatistics {
    pub answer: Result<usize, Fault>,
    pub bytes: [u8; LONGEST_STATISTICS],
}

// The count and the records over zeros, up to the first record that may not be written.
fn put_statistics(
    bytes: &mut [u8; LONGEST_STATISTICS],
    count: u32,
    records: &[Statistic; STATISTIC_ENTRIES],
) -> Result<usize, Fault>
    requires { bytes.old ≡ replicate longest_statistics 0 }
    ensures { (answer_of result ≡ length_of (encoded count records.now))
        × OnOk result (bytes.new ≡ padded longest_statistics 0 (members_in (encoded count records.now))) }
{
    if MOST_STATISTICS < count {
        return Err(Fault::OutsideLimit);
    }
    octets::put_be4(bytes, 0, count);
    let mut p: usize = 4;
    for r in &records[..count as usize] {
        check_statistic(*r)?;
        p = put_statistic(bytes, p, *r);
    }
    Ok(p)
}

// The same into lent bytes, whatever they were: those past the length are 0, and each is after a refusal.
pub fn encode_into(
    bytes: &mut [u8; LONGEST_STATISTICS],
    count: u32,
    records: &[Statistic; STATISTIC_ENTRIES],
) -> Result<usize, Fault>
    ensures { (answer_of result ≡ length_of (encoded count records.now))
        × (bytes.new ≡ padded longest_statistics 0 (members_in (encoded count records.now))) }
{
    *bytes = [0u8; LONGEST_STATISTICS];
    let answer = put_statistics(bytes, count, records);
    if answer.is_err() {
        *bytes = [0u8; LONGEST_STATISTICS];
    }
    answer
}

pub fn encode_statistics(count: u32, records: [Statistic; STATISTIC_ENTRIES]) -> EncodedStatistics
    ensures { (answer_of result.answer ≡ length_of (encoded count records))
        × (result.bytes ≡ padded longest_statistics 0 (members_in (encoded count records))) }
{
    let mut bytes = [0u8; LONGEST_STATISTICS];
    let answer = encode_into(&mut bytes, count, &records);
    EncodedStatistics { answer, bytes }
}

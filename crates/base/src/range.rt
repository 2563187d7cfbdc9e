// The range rule and the I/O request rule, at full 64 bits: no sum is formed that could wrap.
ghost use Rattle.std.specs.Prelude.{◌≡◌};
ghost use Rattle.base.specs.Ranges.{range_last, request_last};
ghost use Rattle.base.specs.Results.{answer_of};

use crate::refusal::Fault;

// The last byte that a file offset can name.
pub const LAST_BYTE: u64 = 18446744073709551615;

// What offset and length may come to together.
pub const LARGEST_SUM: u64 = 18446744073709551615;

// The length that means through the last byte, from any offset.
pub const TO_THE_END: u64 = 18446744073709551615;

#[tactic(auto, unfolding(crate::specs::Ranges::range_last, crate::specs::Answer::pick))]
pub fn range_last(offset: u64, len: u64) -> Result<u64, Fault>
    ensures { answer_of result ≡ range_last offset len }
{
    if len == TO_THE_END {
        return Ok(LAST_BYTE);
    }
    request_last(offset, len)
}

#[tactic(auto, unfolding(crate::specs::Ranges::request_last, crate::specs::Answer::pick))]
pub fn request_last(offset: u64, len: u64) -> Result<u64, Fault>
    ensures { answer_of result ≡ request_last offset len }
{
    if len == 0 {
        return Err(Fault::RangeInvalid);
    }
    if LARGEST_SUM - len < offset {
        return Err(Fault::RangeInvalid);
    }
    Ok(offset + (len - 1))
}

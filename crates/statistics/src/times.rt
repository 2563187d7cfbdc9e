// Times: `nfstime4`.
ghost use Rattle.std.specs.Prelude.{◌≡◌};
ghost use Rattle.xdr.specs.Answers.{parsed_of};
ghost use Rattle.statistics.specs.Latencies.{time_at, time_fits};

use crate::Time;
use base::Fault;
use xdr::{Cursor, Read};

// The last second that is not negative.
const LAST_SECOND: u64 = 9223372036854775807;

const NANOSECONDS_IN_A_SECOND: u32 = 1000000000;

#[tactic(auto, unfolding(crate::specs::Latencies::time_fits))]
pub(crate) fn time_fits(t: Time) -> bool
    ensures { result ≡ time_fits t }
{
    t.seconds <= LAST_SECOND && t.nanoseconds < NANOSECONDS_IN_A_SECOND
}

#[tactic(auto, unfolding(crate::specs::Latencies::time_at, xdr::specs::Parsed::then, base::specs::Answer::pick))]
pub(crate) fn read_time(s: &[u8], c: Cursor) -> Read<Time>
    ensures { parsed_of result ≡ time_at s.now c.at }
{
    let (seconds, c1) = xdr::read_u64(s, c)?;
    let (nanoseconds, c2) = xdr::read_u32(s, c1)?;
    let t = Time {
        seconds,
        nanoseconds,
    };
    if !time_fits(t) {
        return Err(Fault::TimeInvalid);
    }
    Ok((t, c2))
}

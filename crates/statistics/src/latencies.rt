// Counts and latencies: `io_info4` and `ff_io_latency4`.
ghost use Rattle.std.specs.Prelude.{◌≡◌, ◌+◌, ◌≤◌, length};
ghost use Rattle.xdr.specs.Answers.{parsed_of};
ghost use Rattle.statistics.specs.Latencies.{counters_size, io_info_at, latency_at, latency_from};

use crate::times::read_time;
use crate::{IoInfo, Latency, Time};
use xdr::{Cursor, Read};

// The five numbers before the times of a latency.
const COUNTERS_SIZE: usize = 40;

#[tactic(auto, unfolding(crate::specs::Latencies::io_info_at, xdr::specs::Parsed::then))]
pub(crate) fn read_io_info(s: &[u8], c: Cursor) -> Read<IoInfo>
    ensures { parsed_of result ≡ io_info_at s.now c.at }
{
    let (count, c1) = xdr::read_u64(s, c)?;
    let (bytes, c2) = xdr::read_u64(s, c1)?;
    Ok((IoInfo { count, bytes }, c2))
}

// The latency whose five numbers are at an offset.
fn latency_of(s: &[u8], at: usize, busy: Time, completion: Time) -> Latency
    requires { at + counters_size ≤ length s.now }
    ensures { result ≡ latency_from s.now at busy completion }
{
    Latency {
        ops_requested: octets::be8(s, at),
        bytes_requested: octets::be8(s, at + 8),
        ops_completed: octets::be8(s, at + 16),
        bytes_completed: octets::be8(s, at + 24),
        bytes_not_delivered: octets::be8(s, at + 32),
        busy,
        completion,
    }
}

// The five numbers are not judged, so they are one item.
#[tactic(auto, using(crate::proofs::LatencyLaws::latency_by_counters, crate::proofs::LatencyLaws::counters_there), unfolding(xdr::specs::Parsed::then))]
pub(crate) fn read_latency(s: &[u8], c: Cursor) -> Read<Latency>
    ensures { parsed_of result ≡ latency_at s.now c.at }
{
    let (_, c1) = xdr::read_bytes(s, c, COUNTERS_SIZE)?;
    let (busy, c2) = read_time(s, c1)?;
    let (completion, c3) = read_time(s, c2)?;
    Ok((latency_of(s, c.at, busy, completion), c3))
}

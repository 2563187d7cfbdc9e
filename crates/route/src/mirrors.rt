// The mirrors that an I/O names.
ghost use Rattle.std.specs.Prelude.{◌≡◌, not, ◌&&◌, ◌^◌, ◌≤◌, ◌<◌};
ghost use Rattle.base.specs.Limits.{most_mirrors};
ghost use Rattle.route.specs.Mirrors.{best_mirror, efficiency_of};
ghost use Rattle.route.specs.Routes.{mirrors_named, one_mirror};

use base::{MOST_STARTS, MirrorNumber, StripeNumber};
use layout::Summary;

// The efficiency of a mirror's server of a stripe.
fn efficiency(body: &[u8], starts: [u16; MOST_STARTS], stripe: StripeNumber, m: MirrorNumber) -> u32
    ensures { result ≡ efficiency_of body.now starts stripe.0 m.0 }
{
    let start = layout::start_of(starts, m, stripe) as usize;
    octets::be4(body, start + server::SERVER_EFFICIENCY_OFFSET)
}

// The mirror with the highest efficiency, the lowest number on a tie, by the servers of one stripe.
pub(crate) fn best_mirror(
    body: &[u8],
    starts: [u16; MOST_STARTS],
    mirrors: u32,
    stripe: StripeNumber,
) -> MirrorNumber
    requires { 1 ≤ mirrors }
    ensures { (result.0 ≡ best_mirror body.now starts mirrors stripe.0) × (result.0 < mirrors) }
{
    let mut best: u32 = 0;
    let mut highest = efficiency(body, starts, stripe, MirrorNumber(0));
    for m in 1..mirrors {
        let e = efficiency(body, starts, stripe, MirrorNumber(m));
        if highest < e {
            best = m;
            highest = e;
        }
    }
    MirrorNumber(best)
}

// 2 to the n, for n up to 8.
fn power(n: u32) -> u32
    requires { n ≤ most_mirrors }
    ensures { (result ≡ 2 ^ n) × (1 ≤ result) }
{
    1 << n
}

// Whether all mirrors are named: in a write, unless flag 8 is in its body.
fn names_all(write: bool, flags: u32) -> bool
    ensures { result ≡ (write && not (one_mirror flags)) }
{
    write && !base::has_bit(flags, 8)
}

pub(crate) fn mirrors_named(
    write: bool,
    body: &[u8],
    summary: Summary,
    starts: [u16; MOST_STARTS],
    stripe: StripeNumber,
) -> u32
    requires { (1 ≤ summary.mirrors) × (summary.mirrors ≤ most_mirrors) }
    ensures { result ≡ mirrors_named write body.now (record { summary = summary; starts = starts })
        stripe.0 }
{
    if names_all(write, summary.flags) {
        return power(summary.mirrors) - 1;
    }
    let m = best_mirror(body, starts, summary.mirrors, stripe);
    power(m.0)
}

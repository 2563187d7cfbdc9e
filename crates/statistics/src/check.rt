// Whether a record may be written: its fields in wire order.
ghost use Rattle.std.specs.Prelude.{◌≡◌};
ghost use Rattle.base.specs.Results.{answer_of};
ghost use Rattle.statistics.specs.StatisticChecks.{checked_statistic, length_fits, lengths_fit, times_fit};

use crate::times::time_fits;
use crate::{LayoutUpdate, Statistic};
use base::{Fault, LONGEST_ADDRESS, LONGEST_FILEHANDLE, LONGEST_NETID};

#[tactic(auto, unfolding(crate::specs::StatisticChecks::length_fits))]
fn length_fits(most: u32, n: u32) -> bool
    ensures { result ≡ length_fits most n }
{
    1 <= n && n <= most
}

#[tactic(auto, unfolding(crate::specs::StatisticChecks::lengths_fit))]
fn lengths_fit(u: LayoutUpdate) -> bool
    ensures { result ≡ lengths_fit u }
{
    length_fits(LONGEST_NETID, u.address.netid.length)
        && length_fits(LONGEST_ADDRESS, u.address.text.length)
        && length_fits(LONGEST_FILEHANDLE, u.filehandle.length)
}

#[tactic(auto, unfolding(crate::specs::StatisticChecks::times_fit))]
fn times_fit(u: LayoutUpdate) -> bool
    ensures { result ≡ times_fit u }
{
    time_fits(u.read.busy)
        && time_fits(u.read.completion)
        && time_fits(u.write.busy)
        && time_fits(u.write.completion)
        && time_fits(u.duration)
}

#[tactic(auto, unfolding(crate::specs::StatisticChecks::checked_statistic, base::specs::Answer::given, base::specs::Answer::pick))]
pub(crate) fn check_statistic(r: Statistic) -> Result<(), Fault>
    ensures { answer_of result ≡ checked_statistic r }
{
    base::range_last(r.offset, r.length)?;
    let update = r.update;
    if !lengths_fit(update) {
        return Err(Fault::OutsideLimit);
    }
    if !times_fit(update) {
        return Err(Fault::TimeInvalid);
    }
    if 1 < update.local {
        return Err(Fault::BooleanInvalid);
    }
    Ok(())
}

// Stripes, by division and remainder: nothing is multiplied out, so nothing can wrap.
ghost use Rattle.std.specs.Prelude.{◌≡◌, ◌/◌, ◌≤◌, ◌<◌};
ghost use Rattle.route.specs.Stripes.{piece_length, stripe_of, unit_rest};

use base::StripeNumber;

// Which unit of the file a byte is in.
pub(crate) fn unit_index(unit: u64, offset: u64) -> u64
    requires { 0 < unit }
    ensures { result ≡ offset / unit }
{
    offset / unit
}

// How many bytes of its unit are left from a byte on.
pub(crate) fn unit_rest(unit: u64, offset: u64) -> u64
    requires { 0 < unit }
    ensures { result ≡ unit_rest unit offset }
{
    unit - offset % unit
}

pub(crate) fn stripe_of(unit: u64, servers: u32, offset: u64) -> StripeNumber
    requires { 1 < servers → 0 < unit }
    ensures { result ≡ record { 0 = stripe_of unit servers offset } }
{
    if servers <= 1 {
        return StripeNumber(0);
    }
    let stripe = (unit_index(unit, offset) % servers as u64) as u32;
    StripeNumber(stripe)
}

// The rest of a segment can have 2^64 bytes, so one is taken off each length before they are compared.
pub(crate) fn piece_length(unit: u64, servers: u32, last: u64, offset: u64, len: u64) -> u64
    requires { (1 ≤ len) × (offset ≤ last) × (1 < servers → 0 < unit) }
    ensures { result ≡ piece_length unit servers last offset len }
{
    let held = (len - 1).min(last - offset);
    if servers <= 1 {
        return held + 1;
    }
    let rest = unit_rest(unit, offset) - 1;
    held.min(rest) + 1
}

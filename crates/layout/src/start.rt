// Where one data server starts.
ghost use Rattle.std.specs.Prelude.{◌≡◌};
ghost use Rattle.layout.specs.Layouts.{start_at};

use base::{MIRROR_ENTRIES, MOST_STARTS, MirrorNumber, ROW_ENTRIES, StripeNumber};

// Out of the starts of a layout body; 0 for a mirror or a stripe that is not among them.
#[tactic(auto, using(crate::proofs::LayoutLaws::start_at_lem, crate::proofs::LayoutLaws::no_start_of_stripe, crate::proofs::LayoutLaws::no_start_of_mirror))]
pub fn start_of(starts: [u16; MOST_STARTS], mirror: MirrorNumber, stripe: StripeNumber) -> u16
    ensures { result ≡ start_at starts mirror.0 stripe.0 }
{
    let m = mirror.0 as usize;
    let k = stripe.0 as usize;
    if MIRROR_ENTRIES <= m {
        return 0;
    }
    if ROW_ENTRIES <= k {
        return 0;
    }
    starts[m * ROW_ENTRIES + k]
}

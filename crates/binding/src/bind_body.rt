// The whole order of a binding: layout body, device body, mirror and stripe number, set of versions, then server and
// entry.
ghost use Rattle.std.specs.Prelude.{◌≡◌};
ghost use Rattle.base.specs.Results.{answered};
ghost use Rattle.binding.specs.Bindings.{bound_to};

use crate::entry::{Bound, bind_server};
use base::{DEVICE_ID_SIZE, EVERY_VERSION, Fault, MirrorNumber, Refusal, StripeNumber};

// The device body was fetched under id; supported is the caller's set of versions.
#[tactic(auto, unfolding(crate::specs::Bindings::bound_to, crate::specs::Bindings::require, base::specs::Answer::given, base::specs::Answer::pick))]
pub fn bind(
    layout: &[u8],
    mirror: MirrorNumber,
    stripe: StripeNumber,
    device: &[u8],
    id: &[u8; DEVICE_ID_SIZE],
    supported: u32,
) -> Result<Bound, Refusal>
    ensures { answered result
        ≡ bound_to layout.now mirror.0 stripe.0 device.now id.now supported }
{
    let l = layout::read_layout(layout);
    let summary = l.answer?;
    let d = device::read_device(device);
    let counts = d.answer?;
    if summary.mirrors <= mirror.0 {
        return Err(Refusal::BeyondLayout);
    }
    if summary.servers <= stripe.0 {
        return Err(Refusal::BeyondLayout);
    }
    if EVERY_VERSION < supported {
        return Err(Refusal::Fault(Fault::OutsideLimit));
    }
    let start = layout::start_of(l.starts, mirror, stripe) as usize;
    bind_server(layout, start, &d.versions, counts.versions, id, supported)
}

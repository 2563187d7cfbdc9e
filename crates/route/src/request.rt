// Where an I/O request goes.
ghost use Rattle.std.specs.Prelude.{◌≡◌, ◌≤◌, ◌<◌};
ghost use Rattle.base.specs.Limits.{most_mirrors};
ghost use Rattle.base.specs.Results.{answered};
ghost use Rattle.route.specs.Answers.{serving_of};
ghost use Rattle.route.specs.Routes.{piece_at, routed};

use crate::mirrors::mirrors_named;
use crate::piece::Piece;
use crate::rights::{Grant, serving_grant, slot_asked};
use crate::stripes::{piece_length, stripe_of};
use base::{MOST_STARTS, Refusal};
use layout::Summary;
use segments::Table;

// What serves a request: a grant, and the layout body in its slot.
#[derive(Clone, Copy)]
pub struct Serving {
    pub grant: Grant,
    pub summary: Summary,
    pub starts: [u16; MOST_STARTS],
}

// The answer to a request that is served.
fn piece_at(write: bool, store: &[u8], offset: u64, len: u64, v: Serving) -> Piece
    requires { (1 ≤ len) × (offset ≤ v.grant.last)
        × (1 ≤ v.summary.mirrors) × (v.summary.mirrors ≤ most_mirrors)
        × (1 < v.summary.servers → 0 < v.summary.unit) }
    ensures { result ≡ piece_at write store.now offset len (serving_of v) }
{
    let g = v.grant;
    let summary = v.summary;
    let starts = v.starts;
    let slot = g.slot;
    let stripe = stripe_of(summary.unit, summary.servers, offset);
    let piece = piece_length(summary.unit, summary.servers, g.last, offset, len);
    let mirrors = mirrors_named(
        write,
        store::slot_body(store::slot_bytes(store, slot)),
        summary,
        starts,
        stripe,
    );
    Piece {
        iomode: g.iomode,
        slot,
        stripe,
        offset,
        length: piece,
        mirrors,
    }
}

// "Order: 20, 5, 17." In a sound store the body under which a byte is granted is read, never refused.
pub fn locate(t: Table, store: &[u8], write: bool, offset: u64, len: u64) -> Result<Piece, Refusal>
    ensures { answered result ≡ routed write t store.now offset len }
{
    let h = serving_grant(write, t, store, offset);
    let j = soundness::validate_and_read(t, store, slot_asked(h));
    if !j.sound {
        return Err(Refusal::Unsound);
    }
    base::request_last(offset, len)?;
    let Some(grant) = h else {
        return Err(Refusal::RightMissing);
    };
    let Ok(summary) = j.read.answer else {
        return Err(Refusal::RightMissing);
    };
    let starts = j.read.starts;
    let v = Serving {
        grant,
        summary,
        starts,
    };
    Ok(piece_at(write, store, offset, len, v))
}

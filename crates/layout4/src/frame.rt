// What is before the body of a layout4.
ghost use Rattle.std.specs.Prelude.{◌≡◌};
ghost use Rattle.xdr.specs.Answers.{parsed_of};
ghost use Rattle.layout4.specs.Layout4s.{frame_at};

use base::{Fault, Iomode, LONGEST_BODY};
use xdr::{Cursor, Range, Read};

// A body's length as it is read.
const LONGEST_SIZE: u32 = LONGEST_BODY as u32;

#[derive(Clone, Copy)]
pub struct Frame {
    pub range: Range,
    pub iomode: Iomode,
    pub size: u32,
}

#[tactic(auto, unfolding(crate::specs::Layout4s::frame_at, xdr::specs::Parsed::then, xdr::specs::Parsed::as_item, base::specs::Answer::pick))]
pub(crate) fn read_frame(s: &[u8], c: Cursor) -> Read<Frame>
    ensures { parsed_of result ≡ frame_at s.now c.at }
{
    let (range, c1) = xdr::read_range(s, c)?;
    let (number, c2) = xdr::read_u32(s, c1)?;
    let iomode = base::grant_iomode(number)?;
    let (kind, c3) = xdr::read_u32(s, c2)?;
    if kind != 4 {
        return Err(Fault::LayoutTypeUnknown);
    }
    let (size, c4) = xdr::read_count(s, c3, 0, LONGEST_SIZE)?;
    let frame = Frame {
        range,
        iomode,
        size,
    };
    Ok((frame, c4))
}

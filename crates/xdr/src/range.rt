// Offset and length of a range, judged together.
ghost use Rattle.std.specs.Prelude.{◌≡◌};
ghost use Rattle.xdr.specs.Items.{range_at};
ghost use Rattle.xdr.specs.Answers.{parsed_of};

use crate::number::read_u64;
use crate::{Cursor, Read};

// Offset and length as on the wire, and the last byte.
#[derive(Clone, Copy)]
pub struct Range {
    pub offset: u64,
    pub length: u64,
    pub last: u64,
}

#[tactic(auto, unfolding(crate::specs::Items::range_at, crate::specs::Parsed::then, crate::specs::Parsed::as_item))]
pub fn read_range(s: &[u8], c: Cursor) -> Read<Range>
    ensures { parsed_of result ≡ range_at s.now c.at }
{
    let (offset, c1) = read_u64(s, c)?;
    let (length, c2) = read_u64(s, c1)?;
    let last = base::range_last(offset, length)?;
    let range = Range {
        offset,
        length,
        last,
    };
    Ok((range, c2))
}

// Booleans, counts, and bytes with their padding.
ghost use Rattle.std.specs.Prelude.{◌≡◌};
ghost use Rattle.xdr.specs.Items.{bool_at, bytes_at, count_at, opaque_at};
ghost use Rattle.xdr.specs.Answers.{parsed_of};

use crate::number::read_u32;
use crate::{Cursor, Part, Read};
use base::Fault;

#[tactic(auto, unfolding(crate::specs::Items::bool_at, crate::specs::Parsed::then, base::specs::Answer::pick))]
pub fn read_bool(s: &[u8], c: Cursor) -> Read<bool>
    ensures { parsed_of result ≡ bool_at s.now c.at }
{
    let (n, d) = read_u32(s, c)?;
    if 1 < n {
        return Err(Fault::BooleanInvalid);
    }
    Ok((n == 1, d))
}

// A count or a length, from least to most.
#[tactic(auto, unfolding(crate::specs::Items::count_at, crate::specs::Parsed::then, base::specs::Answer::pick))]
pub fn read_count(s: &[u8], c: Cursor, least: u32, most: u32) -> Read<u32>
    ensures { parsed_of result ≡ count_at least most s.now c.at }
{
    let (n, d) = read_u32(s, c)?;
    if n < least {
        return Err(Fault::OutsideLimit);
    }
    if most < n {
        return Err(Fault::OutsideLimit);
    }
    Ok((n, d))
}

// n bytes and their padding; bytes of a fixed number that is a multiple of 4 have none.
#[tactic(auto, unfolding(crate::specs::Items::bytes_at, base::specs::Answer::pick), using(crate::proofs::ItemLaws::bytes_short))]
pub fn read_bytes(s: &[u8], c: Cursor, n: usize) -> Read<Part>
    ensures { parsed_of result ≡ bytes_at n s.now c.at }
{
    let at = c.at;
    let pad = (4 - n % 4) % 4;
    if s.len() < at {
        return Err(Fault::BytesRunOut);
    }
    if s.len() - at < n {
        return Err(Fault::BytesRunOut);
    }
    let end = at + n;
    if s.len() - end < pad {
        return Err(Fault::BytesRunOut);
    }
    let next = end + pad;
    if !octets::all_zero(&s[end..next], 0) {
        return Err(Fault::PaddingNotZero);
    }
    Ok((Part { start: at, len: n }, Cursor { at: next }))
}

// Variable opaque or string data of least to most bytes.
#[tactic(auto, unfolding(crate::specs::Items::opaque_at, crate::specs::Parsed::then))]
pub fn read_opaque(s: &[u8], c: Cursor, least: u32, most: u32) -> Read<Part>
    ensures { parsed_of result ≡ opaque_at least most s.now c.at }
{
    let (n, d) = read_count(s, c, least, most)?;
    read_bytes(s, d, n as usize)
}

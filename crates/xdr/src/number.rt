// Numbers of 4 and 8 bytes.
ghost use Rattle.std.specs.Prelude.{◌≡◌};
ghost use Rattle.xdr.specs.Items.{num_at};
ghost use Rattle.xdr.specs.Answers.{parsed_of};

use crate::{Cursor, Read};
use base::Fault;

#[tactic(auto, using(crate::proofs::ItemLaws::num_short, crate::proofs::ItemLaws::num_there))]
pub fn read_u32(s: &[u8], c: Cursor) -> Read<u32>
    ensures { parsed_of result ≡ num_at 4 s.now c.at }
{
    let at = c.at;
    if s.len() < at {
        return Err(Fault::BytesRunOut);
    }
    if s.len() - at < 4 {
        return Err(Fault::BytesRunOut);
    }
    Ok((octets::be4(s, at), Cursor { at: at + 4 }))
}

#[tactic(auto, using(crate::proofs::ItemLaws::num_short, crate::proofs::ItemLaws::num_there))]
pub fn read_u64(s: &[u8], c: Cursor) -> Read<u64>
    ensures { parsed_of result ≡ num_at 8 s.now c.at }
{
    let at = c.at;
    if s.len() < at {
        return Err(Fault::BytesRunOut);
    }
    if s.len() - at < 8 {
        return Err(Fault::BytesRunOut);
    }
    Ok((octets::be8(s, at), Cursor { at: at + 8 }))
}

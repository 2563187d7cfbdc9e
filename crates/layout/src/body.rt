// The layout body as a whole, with its summary.
ghost use Rattle.std.specs.Prelude.{◌≡◌, replicate};
ghost use Rattle.base.specs.Limits.{most_starts};
ghost use Rattle.layout.specs.Layouts.{layout_body};
ghost use Rattle.layout.specs.Answers.{answer_of_layout, starts_in};

use crate::front_and_tail::{read_front, read_tail};
use crate::mirrors::read_mirrors;
use base::{Fault, LONGEST_BODY, MOST_STARTS};
use xdr::Cursor;

#[derive(Clone, Copy)]
pub struct Summary {
    pub unit: u64,
    pub mirrors: u32,
    pub servers: u32,
    pub flags: u32,
    pub hint: u32,
}

// The start of a data server is at the index mirror * 16 + stripe. Unused entries are 0, and all after a refusal: the
// starts stand beside the answer, and not in its `Ok`, so that this can be promised of them.
#[derive(Clone, Copy)]
pub struct LayoutRead {
    pub answer: Result<Summary, Fault>,
    pub starts: [u16; MOST_STARTS],
}

// The starts come into the lent table, which was blank; a refusal says nothing of it.
#[tactic(auto, unfolding(crate::specs::Layouts::layout_body, crate::specs::Layouts::layout_at, xdr::specs::Parsed::then, xdr::specs::Parsed::whole, base::specs::Answer::pick))]
fn read_body(s: &[u8], starts: &mut [u16; MOST_STARTS]) -> Result<Summary, Fault>
    requires { starts.now ≡ replicate most_starts 0 }
    ensures { answer_of_layout result starts.new ≡ layout_body s.now }
{
    if LONGEST_BODY < s.len() {
        return Err(Fault::OutsideLimit);
    }
    let (front, c1) = read_front(s, Cursor { at: 0 })?;
    let c2 = read_mirrors(s, c1, front.mirrors, front.servers, starts)?;
    let (tail, c3) = read_tail(s, c2)?;
    if c3.at != s.len() {
        return Err(Fault::BytesLeftOver);
    }
    Ok(Summary {
        unit: front.unit,
        mirrors: front.mirrors,
        servers: front.servers,
        flags: tail.flags,
        hint: tail.hint,
    })
}

#[tactic(auto, unfolding(crate::specs::Answers::starts_in))]
pub fn read_layout(s: &[u8]) -> LayoutRead
    ensures { (answer_of_layout result.answer result.starts ≡ layout_body s.now)
        × (result.starts ≡ starts_in (layout_body s.now)) }
{
    let mut starts = [0u16; MOST_STARTS];
    match read_body(s, &mut starts) {
        Ok(summary) => LayoutRead {
            answer: Ok(summary),
            starts,
        },
        Err(e) => LayoutRead {
            answer: Err(e),
            starts: [0u16; MOST_STARTS],
        },
    }
}

// A layout4 as a whole. Its body is read in its own length, so that a fault in it comes before its padding.
ghost use Rattle.std.specs.Prelude.{◌≡◌, ◌+◌, leb, length};
ghost use Rattle.xdr.specs.Items.{padding};
ghost use Rattle.layout4.specs.Layout4s.{layout4};
ghost use Rattle.layout4.specs.Answers.{RefusedLayout4, answer_of_layout4, starts_of_whole};

use crate::frame::{Frame, read_frame};
use base::{Fault, Iomode, MOST_STARTS};
use layout::Summary;
use xdr::{Cursor, Part};

// Offset and length as on the wire, the last byte, and where the body is.
#[derive(Clone, Copy)]
pub struct Layout4 {
    pub offset: u64,
    pub length: u64,
    pub last: u64,
    pub iomode: Iomode,
    pub body: Part,
}

// The starts are the body's, counted from its first byte. After a refusal they are promised to be all 0, and so stand
// beside the answer, and not in its `Ok`.
#[derive(Clone, Copy)]
pub struct Layout4Read {
    pub answer: Result<(Layout4, Summary), Fault>,
    pub starts: [u16; MOST_STARTS],
}

fn layout4_in(frame: Frame, body: Part) -> Layout4
    ensures { result ≡ record {
      offset = frame.range.offset;
      length = frame.range.length;
      last = frame.range.last;
      iomode = frame.iomode;
      body = body;
    } }
{
    Layout4 {
        offset: frame.range.offset,
        length: frame.range.length,
        last: frame.range.last,
        iomode: frame.iomode,
        body,
    }
}

// Whether n bytes and their padding are at an offset.
fn enough(s: &[u8], at: usize, n: u32) -> bool
    ensures { result ≡ leb (at + n + padding n) (length s.now) }
{
    let k = n as usize;
    let pad = (4 - k % 4) % 4;
    if s.len() < at {
        return false;
    }
    k + pad <= s.len() - at
}

fn refused(e: Fault) -> Layout4Read
    ensures { RefusedLayout4 e result }
{
    Layout4Read {
        answer: Err(e),
        starts: [0u16; MOST_STARTS],
    }
}

// Not an inner chain of `?` over a lent table of starts: to blank that table first makes each read a tenth slower.
#[tactic(auto, unfolding(crate::specs::Layout4s::layout4, crate::specs::Layout4s::layout4_at, crate::specs::Answers::starts_of_whole, xdr::specs::Parsed::then, xdr::specs::Parsed::as_item, xdr::specs::Parsed::whole, base::specs::Answer::pick))]
pub fn read_layout4(s: &[u8]) -> Layout4Read
    ensures { (answer_of_layout4 result.answer result.starts ≡ layout4 s.now)
        × (result.starts ≡ starts_of_whole (layout4 s.now)) }
{
    let (frame, c1) = match read_frame(s, Cursor { at: 0 }) {
        Ok(framed) => framed,
        Err(e) => return refused(e),
    };
    let at = c1.at;
    if !enough(s, at, frame.size) {
        return refused(Fault::BytesRunOut);
    }
    let end = at + frame.size as usize;
    let read = layout::read_layout(&s[at..end]);
    let summary = match read.answer {
        Ok(summary) => summary,
        Err(e) => return refused(e),
    };
    let (body, c2) = match xdr::read_bytes(s, c1, frame.size as usize) {
        Ok(part) => part,
        Err(e) => return refused(e),
    };
    if c2.at != s.len() {
        return refused(Fault::BytesLeftOver);
    }
    let layout = layout4_in(frame, body);
    let starts = read.starts;
    Layout4Read {
        answer: Ok((layout, summary)),
        starts,
    }
}

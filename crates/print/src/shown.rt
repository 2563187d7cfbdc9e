// How bytes and refusals are shown.
ghost use Rattle.std.specs.Prelude.{◌≡◌, [], eqb};
ghost use Rattle.base.specs.Answer.{pick};
ghost use Rattle.print.specs.Shown.{device_id_at};

use base::{DEVICE_ID_SIZE, Refusal};
use std::fmt;

// Each byte as two digits.
#[derive(Drop)]
pub struct Hex<'a>(pub &'a [u8]);

impl fmt::Display for Hex<'_> {
    fn fmt<W: fmt::Write>(&self, f: &mut fmt::Formatter<W>) -> fmt::Result {
        for byte in self.0 {
            write!(f, "{byte:02x}")?;
        }
        Ok(())
    }
}

// The device id at an offset; nothing where its bytes run out.
#[tactic(auto, unfolding(crate::specs::Shown::device_id_at, base::specs::Answer::pick))]
pub fn device_id(bytes: &[u8], at: usize) -> Hex<'_>
    ensures { result.0.now ≡ device_id_at bytes.now at }
{
    if bytes.len() < at || bytes.len() - at < DEVICE_ID_SIZE {
        return Hex(b"");
    }
    let end = at + DEVICE_ID_SIZE;
    Hex(&bytes[at..end])
}

// A refusal, after what was asked.
#[derive(Drop)]
pub struct Refused(pub Refusal);

impl fmt::Display for Refused {
    fn fmt<W: fmt::Write>(&self, f: &mut fmt::Formatter<W>) -> fmt::Result {
        write!(f, " refused {}", u32::from(self.0))
    }
}

// What is between the members of a list, before member i.
#[tactic(auto, unfolding(base::specs::Answer::pick))]
pub fn between(text: &'static str, i: usize) -> &'static str
    ensures { result.now ≡ pick (eqb i 0) [] text.now }
{
    if i == 0 { "" } else { text }
}

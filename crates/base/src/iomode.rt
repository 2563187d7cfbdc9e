// Iomodes by their wire numbers.
ghost use Rattle.std.specs.Prelude.{◌≡◌};
ghost use Rattle.base.specs.Iomodes.{grant_iomode_of, iomode_of, number_of_iomode};
ghost use Rattle.base.specs.Results.{answer_of};

use crate::refusal::Fault;

#[derive(Clone, Copy)]
pub enum Iomode {
    Read,
    ReadWrite,
    Any,
}

// What a return and a recall may name.
impl TryFrom<u32> for Iomode {
    type Error = Fault;

    ghost try_from_gives = { λ n r. answer_of r ≡ iomode_of n };

    #[tactic(auto, unfolding(crate::specs::Iomodes::iomode_of, crate::specs::Answer::pick))]
    fn try_from(n: u32) -> Result<Iomode, Fault> {
        match n {
            1 => Ok(Iomode::Read),
            2 => Ok(Iomode::ReadWrite),
            3 => Ok(Iomode::Any),
            _ => Err(Fault::IomodeNotAllowed),
        }
    }
}

impl From<Iomode> for u32 {
    ghost from_gives = { λ m n. n ≡ number_of_iomode m };

    fn from(m: Iomode) -> u32 {
        match m {
            Iomode::Read => 1,
            Iomode::ReadWrite => 2,
            Iomode::Any => 3,
        }
    }
}

// What a grant may name.
#[tactic(auto, unfolding(crate::specs::Iomodes::iomode_of, crate::specs::Iomodes::grant_iomode_of, crate::specs::Answer::pick))]
pub fn grant_iomode(n: u32) -> Result<Iomode, Fault>
    ensures { answer_of result ≡ grant_iomode_of n }
{
    if n == 3 {
        return Err(Fault::IomodeNotAllowed);
    }
    Iomode::try_from(n)
}

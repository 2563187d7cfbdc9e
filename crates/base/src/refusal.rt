// What is refused, with the numbers of the scope's table: what a reader finds wrong, and what a call answers.
ghost use Rattle.std.specs.Prelude.{◌≡◌};
ghost use Rattle.base.specs.Answer.{refusal_in};
ghost use Rattle.base.specs.Refusals.{fault_number, number_of};
ghost use Rattle.base.specs.Results.{answer_of};
ghost use Rattle.base.specs.declared.refusal.Refusal.TheVariants.{Fault};

// What a reader of bytes and numbers finds wrong with them.
#[derive(Clone, Copy)]
pub enum Fault {
    BytesRunOut,
    BytesLeftOver,
    IomodeNotAllowed,
    LayoutTypeUnknown,
    RangeInvalid,
    PaddingNotZero,
    BooleanInvalid,
    OutsideLimit,
    ServerCountDiffers,
    UnitDisagrees,
    FlagUnknown,
    VersionInvalid,
    ErrorInvalid,
    TimeInvalid,
}

// What a call answers: a reader's fault, or a refusal of its own.
#[derive(Clone, Copy)]
pub enum Refusal {
    Fault(Fault),
    BindingDiffers,
    NoSupportedVersion,
    StateidNotZero,
    BeyondLayout,
    RightMissing,
    Unsound,
    HeldUnderOtherBody,
    RecalledInRange,
    TooManySegments,
    NoFreeSlot,
    NothingHeld,
    OutputTooShort,
}

impl From<Fault> for Refusal {
    ghost from_gives = { λ f r. r ≡ Fault f };

    fn from(f: Fault) -> Refusal {
        Refusal::Fault(f)
    }
}

impl From<Fault> for u32 {
    ghost from_gives = { λ f n. n ≡ fault_number f };

    fn from(f: Fault) -> u32 {
        match f {
            Fault::BytesRunOut => 1,
            Fault::BytesLeftOver => 2,
            Fault::IomodeNotAllowed => 3,
            Fault::LayoutTypeUnknown => 4,
            Fault::RangeInvalid => 5,
            Fault::PaddingNotZero => 6,
            Fault::BooleanInvalid => 7,
            Fault::OutsideLimit => 8,
            Fault::ServerCountDiffers => 9,
            Fault::UnitDisagrees => 10,
            Fault::FlagUnknown => 11,
            Fault::VersionInvalid => 12,
            Fault::ErrorInvalid => 27,
            Fault::TimeInvalid => 28,
        }
    }
}

impl From<Refusal> for u32 {
    ghost from_gives = { λ e n. n ≡ number_of e };

    fn from(e: Refusal) -> u32 {
        match e {
            Refusal::Fault(f) => u32::from(f),
            Refusal::BindingDiffers => 13,
            Refusal::NoSupportedVersion => 14,
            Refusal::StateidNotZero => 15,
            Refusal::BeyondLayout => 16,
            Refusal::RightMissing => 17,
            Refusal::Unsound => 20,
            Refusal::HeldUnderOtherBody => 21,
            Refusal::RecalledInRange => 22,
            Refusal::TooManySegments => 23,
            Refusal::NoFreeSlot => 24,
            Refusal::NothingHeld => 25,
            Refusal::OutputTooShort => 26,
        }
    }
}

// The fault of an answer. The papers have none for an answer with a value: it is the first of the table.
pub fn fault_of<T: Copy>(r: Result<T, Fault>) -> Fault
    ensures { fault_number result ≡ refusal_in (answer_of r) }
{
    match r {
        Ok(_) => Fault::BytesRunOut,
        Err(e) => e,
    }
}

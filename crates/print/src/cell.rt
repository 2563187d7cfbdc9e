// How wide a number is.
ghost use Rattle.print.specs.Digits.{IsDigitCount};

// How many digits a number has, written without zeros in front.
pub fn digits(v: u64) -> u64
    ensures { IsDigitCount 10 1 v result }
{
    match v.checked_ilog10() {
        None => 1,
        Some(power) => power as u64 + 1,
    }
}

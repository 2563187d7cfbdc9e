// Whether bytes are all zero, in blocks: a loop with no exit inside goes many bytes at a time.
ghost use Rattle.std.specs.Prelude.{◌≡◌, drop};
ghost use Rattle.octets.specs.Numbers.{all_zero};

// An OR of all bytes has a bit where one of them has it.
#[tactic(auto, using(crate::proofs::ZeroLaws::run_passed))]
fn zero_run(s: &[u8]) -> bool
    ensures { result ≡ all_zero s.now }
{
    let mut bits = 0;
    for byte in s {
        bits |= *byte;
    }
    bits == 0
}

#[tactic(auto, using(crate::proofs::ZeroLaws::block_first, crate::proofs::ZeroLaws::block_at))]
fn zeros(s: &[u8]) -> bool
    ensures { result ≡ all_zero s.now }
{
    let (blocks, rest) = s.as_chunks::<256>();
    for block in blocks {
        if !zero_run(block) {
            return false;
        }
    }
    zero_run(rest)
}

// The bytes from an offset to the end.
#[tactic(auto, using(crate::proofs::ZeroLaws::zero_past))]
pub fn all_zero(s: &[u8], at: usize) -> bool
    ensures { result ≡ all_zero (drop at s.now) }
{
    match s.get(at..) {
        Some(rest) => zeros(rest),
        None => true,
    }
}

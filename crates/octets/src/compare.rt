// Whether two runs of bytes are equal, in blocks: a loop with no exit inside goes many bytes at a time.
ghost use Rattle.std.specs.Prelude.{◌≡◌, length};
ghost use Rattle.octets.specs.Numbers.{same_bytes};

#[tactic(auto, using(crate::proofs::SameLaws::run_passed))]
fn same_run(s: &[u8], t: &[u8]) -> bool
    requires { length s.now ≡ length t.now }
    ensures { result ≡ same_bytes s.now t.now }
{
    let mut z = true;
    for (x, y) in s.iter().zip(t) {
        z = z & (*x == *y);
    }
    z
}

#[tactic(auto, using(crate::proofs::SameLaws::same_lengths))]
pub fn same(s: &[u8], t: &[u8]) -> bool
    ensures { result ≡ same_bytes s.now t.now }
{
    if s.len() != t.len() {
        return false;
    }
    let (blocks, rest) = s.as_chunks::<256>();
    let (others, other_rest) = t.as_chunks::<256>();
    for (block, other) in blocks.iter().zip(others) {
        if !same_run(block, other) {
            return false;
        }
    }
    same_run(rest, other_rest)
}

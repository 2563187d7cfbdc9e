// Numbers of 2, 4 and 8 bytes at an offset of a slice; 0 where the bytes run out.
ghost use Rattle.std.specs.Prelude.{◌≡◌, ◌+◌, ◌<◌, ◌≤◌, length, MatchOption};
ghost use Rattle.octets.specs.Numbers.{be_at, bytes_from, le_at};

// The N bytes at an offset, where they are all there.
fn bytes_at<const N: usize>(s: &[u8], at: usize) -> Option<&[u8; N]>
    ensures { MatchOption result (length s.now < at + N)
        (λ bytes. (at + N ≤ length s.now) × (bytes.now ≡ bytes_from N s.now at)) }
{
    s.get(at..)?.first_chunk()
}

#[tactic(auto, using(crate::proofs::NumberLaws::be_short, crate::proofs::WidthLaws::be4_there))]
pub fn be4(s: &[u8], at: usize) -> u32
    ensures { result ≡ be_at 4 s.now at }
{
    match bytes_at(s, at) {
        Some(bytes) => u32::from_be_bytes(*bytes),
        None => 0,
    }
}

#[tactic(auto, using(crate::proofs::NumberLaws::be_short, crate::proofs::WidthLaws::be8_there))]
pub fn be8(s: &[u8], at: usize) -> u64
    ensures { result ≡ be_at 8 s.now at }
{
    match bytes_at(s, at) {
        Some(bytes) => u64::from_be_bytes(*bytes),
        None => 0,
    }
}

#[tactic(auto, using(crate::proofs::NumberLaws::le_short, crate::proofs::WidthLaws::le2_there))]
pub fn le2(s: &[u8], at: usize) -> u32
    ensures { result ≡ le_at 2 s.now at }
{
    match bytes_at(s, at) {
        Some(bytes) => u32::from(u16::from_le_bytes(*bytes)),
        None => 0,
    }
}

#[tactic(auto, using(crate::proofs::NumberLaws::le_short, crate::proofs::WidthLaws::le4_there))]
pub fn le4(s: &[u8], at: usize) -> u32
    ensures { result ≡ le_at 4 s.now at }
{
    match bytes_at(s, at) {
        Some(bytes) => u32::from_le_bytes(*bytes),
        None => 0,
    }
}

#[tactic(auto, using(crate::proofs::NumberLaws::le_short, crate::proofs::WidthLaws::le8_there))]
pub fn le8(s: &[u8], at: usize) -> u64
    ensures { result ≡ le_at 8 s.now at }
{
    match bytes_at(s, at) {
        Some(bytes) => u64::from_le_bytes(*bytes),
        None => 0,
    }
}

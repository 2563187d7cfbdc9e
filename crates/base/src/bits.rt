// Sets of bits in a number.
ghost use Rattle.std.specs.Prelude.{◌≡◌};
ghost use Rattle.base.specs.Bits.{bit};

// Whether the bit of this value is in a set. The value is a power of two; 0 is in no set.
pub fn has_bit(set: u32, value: u32) -> bool
    ensures { result ≡ bit value set }
{
    if value == 0 {
        return false;
    }
    set / value % 2 == 1
}

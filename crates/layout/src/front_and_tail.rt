// What is before the first data server of a layout body, and after the last.
ghost use Rattle.std.specs.Prelude.{◌≡◌};
ghost use Rattle.xdr.specs.Answers.{parsed_of};
ghost use Rattle.layout.specs.Layouts.{flags_at_end, front_at, tail_at, unit_fits};

use base::{Fault, KNOWN_FLAGS, MOST_MIRRORS, MOST_SERVERS};
use xdr::{Cursor, Read};

// The stripe unit, the mirror count and the first mirror's server count.
#[derive(Clone, Copy)]
pub struct Front {
    pub unit: u64,
    pub mirrors: u32,
    pub servers: u32,
}

#[derive(Clone, Copy)]
pub struct Tail {
    pub flags: u32,
    pub hint: u32,
}

#[tactic(auto, unfolding(crate::specs::Layouts::unit_fits, base::specs::Answer::pick))]
fn unit_fits(unit: u64, servers: u32) -> bool
    ensures { result ≡ unit_fits unit servers }
{
    if servers == 1 {
        return unit == 0;
    }
    1 <= unit
}

#[tactic(auto, unfolding(crate::specs::Layouts::front_at, xdr::specs::Parsed::then, base::specs::Answer::pick))]
pub(crate) fn read_front(s: &[u8], c: Cursor) -> Read<Front>
    ensures { parsed_of result ≡ front_at s.now c.at }
{
    let (unit, c1) = xdr::read_u64(s, c)?;
    let (mirrors, c2) = xdr::read_count(s, c1, 1, MOST_MIRRORS)?;
    let (servers, c3) = xdr::read_count(s, c2, 1, MOST_SERVERS)?;
    if !unit_fits(unit, servers) {
        return Err(Fault::UnitDisagrees);
    }
    let front = Front {
        unit,
        mirrors,
        servers,
    };
    Ok((front, c3))
}

#[tactic(auto, unfolding(crate::specs::Layouts::tail_at, xdr::specs::Parsed::then, base::specs::Answer::pick))]
pub(crate) fn read_tail(s: &[u8], c: Cursor) -> Read<Tail>
    ensures { parsed_of result ≡ tail_at s.now c.at }
{
    let (flags, c1) = xdr::read_u32(s, c)?;
    if KNOWN_FLAGS < flags {
        return Err(Fault::FlagUnknown);
    }
    let (hint, c2) = xdr::read_u32(s, c1)?;
    Ok((Tail { flags, hint }, c2))
}

// Where the flags are, counted from the end of a body: "flags (4); statistics hint (4, any)", and nothing may follow.
const FLAGS_FROM_END: usize = 8;

// The flags of an accepted body, without reading the rest of it. Of any other body it is the number that is there, and
// 0 where there are fewer bytes.
#[tactic(auto, unfolding(crate::specs::Layouts::flags_at_end, base::specs::Answer::pick))]
pub fn flags_at_end(body: &[u8]) -> u32
    ensures { result ≡ flags_at_end body.now }
{
    let n = body.len();
    if n < FLAGS_FROM_END {
        return 0;
    }
    octets::be4(body, n - FLAGS_FROM_END)
}

// Which version entry is chosen, and the filehandle with its number.
ghost use Rattle.std.specs.Prelude.{◌≡◌, ◌≤◌, length};
ghost use Rattle.base.specs.Limits.{most_versions};
ghost use Rattle.base.specs.Results.{answered};
ghost use Rattle.xdr.specs.Answers.{parsed_of};
ghost use Rattle.binding.specs.Bindings.{chosen_from, handle_at, supports};

use base::{LONGEST_FILEHANDLE, Refusal};
use device::Version;
use xdr::{Cursor, Part, Read};

// Bits 1, 2, 4 and 8 stand for 3, 4.0, 4.1 and 4.2.
#[tactic(auto, unfolding(crate::specs::Bindings::supports, base::specs::Answer::pick))]
pub(crate) fn supported_by(set: u32, v: Version) -> bool
    ensures { result ≡ supports set v }
{
    let value = match (v.version, v.minor) {
        (3, _) => 1,
        (_, 0) => 2,
        (_, 1) => 4,
        _ => 8,
    };
    base::has_bit(set, value)
}

// The first of the entries that is supported.
#[tactic(auto, using(crate::proofs::BindingLaws::chosen_next, crate::proofs::BindingLaws::chosen_none), unfolding(base::specs::Answer::pick))]
pub(crate) fn choose(set: u32, versions: &[Version]) -> Result<u32, Refusal>
    requires { length versions.now ≤ most_versions }
    ensures { answered result ≡ chosen_from set 0 versions.now }
{
    for (i, &v) in versions.iter().enumerate() {
        if supported_by(set, v) {
            return Ok(i as u32);
        }
    }
    Err(Refusal::NoSupportedVersion)
}

// The filehandle after i others.
#[tactic(auto, using(xdr::proofs::EndLaws::end_was_read, xdr::proofs::EndLaws::end_was_refused), unfolding(crate::specs::Bindings::handle_at, xdr::specs::Parsed::then))]
pub(crate) fn read_handle(s: &[u8], first: Cursor, i: u32) -> Read<Part>
    ensures { parsed_of result ≡ handle_at i s.now first.at }
{
    let c = server::skip_handles(s, first, i)?;
    xdr::read_opaque(s, c, 1, LONGEST_FILEHANDLE)
}

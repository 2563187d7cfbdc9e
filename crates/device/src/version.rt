// One version entry of a device body.
ghost use Rattle.std.specs.Prelude.{◌≡◌};
ghost use Rattle.xdr.specs.Answers.{parsed_of};
ghost use Rattle.device.specs.Versions.{version_at, version_fits};

use crate::list::Item;
use base::Fault;
use xdr::{Cursor, Read};

#[derive(Clone, Copy)]
pub struct Version {
    pub version: u32,
    pub minor: u32,
    pub rsize: u32,
    pub wsize: u32,
    pub tight: bool,
}

#[tactic(auto, unfolding(crate::specs::Versions::version_fits))]
fn version_fits(v: Version) -> bool
    ensures { result ≡ version_fits v }
{
    if v.rsize == 0 {
        return false;
    }
    if v.wsize == 0 {
        return false;
    }
    match v.version {
        3 => v.minor == 0 && !v.tight,
        4 => v.minor <= 2,
        _ => false,
    }
}

impl Item for Version {
    ghost item_at = { version_at };

    // All five fields are read before the entry is judged.
    #[tactic(auto, unfolding(crate::specs::Versions::version_at, crate::specs::Versions::checked_version, xdr::specs::Parsed::then, base::specs::Answer::pick))]
    fn read(s: &[u8], c: Cursor) -> Read<Version> {
        let (version, c1) = xdr::read_u32(s, c)?;
        let (minor, c2) = xdr::read_u32(s, c1)?;
        let (rsize, c3) = xdr::read_u32(s, c2)?;
        let (wsize, c4) = xdr::read_u32(s, c3)?;
        let (tight, c5) = xdr::read_bool(s, c4)?;
        let v = Version {
            version,
            minor,
            rsize,
            wsize,
            tight,
        };
        if !version_fits(v) {
            return Err(Fault::VersionInvalid);
        }
        Ok((v, c5))
    }
}

// What a binding answers: the version entry chosen, and where in the layout body its filehandle and credentials are.
ghost use Rattle.std.specs.Prelude.{◌≡◌};
ghost use Rattle.base.specs.Results.{answered};
ghost use Rattle.abi_wire.specs.BindResults.{bind_result};

use crate::devices::{NO_VERSION, VersionRecord, version_record};
use crate::layouts::{NO_PART, PartRecord, part_record};
use base::Refusal;
use binding::Bound;

// Offsets in the layout body. Tightly coupled, user and group are not used and 0; else the stateid is.
#[repr(C)]
#[derive(Clone, Copy)]
pub struct BindResult {
    pub refusal: u32,
    pub entry: u32,
    pub version: VersionRecord,
    pub filehandle: PartRecord,
    pub stateid: usize,
    pub user: PartRecord,
    pub group: PartRecord,
}

#[tactic(auto, unfolding(crate::specs::BindResults::bind_result))]
pub fn bind_result(b: Result<Bound, Refusal>) -> BindResult
    ensures { result ≡ bind_result (answered b) }
{
    match b {
        Err(e) => BindResult {
            refusal: u32::from(e),
            entry: 0,
            version: NO_VERSION,
            filehandle: NO_PART,
            stateid: 0,
            user: NO_PART,
            group: NO_PART,
        },
        Ok(x) => BindResult {
            refusal: 0,
            entry: x.entry,
            version: version_record(x.version),
            filehandle: part_record(x.filehandle),
            stateid: x.stateid,
            user: part_record(x.user),
            group: part_record(x.group),
        },
    }
}

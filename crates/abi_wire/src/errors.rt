// One error of a report, read.
ghost use Rattle.std.specs.Prelude.{◌≡◌};
ghost use Rattle.xdr.specs.Answers.{parsed_of};
ghost use Rattle.abi_wire.specs.ReportResults.{error_result};

use report::ErrorItem;
use xdr::Read;

// The 16 bytes of the device id are at the offset `device`.
#[repr(C)]
#[derive(Clone, Copy)]
pub struct ErrorResult {
    pub refusal: u32,
    pub device: usize,
    pub status: u32,
    pub operation: u32,
}

#[tactic(auto, unfolding(crate::specs::ReportResults::error_result))]
pub fn error_result(x: Read<ErrorItem>) -> ErrorResult
    ensures { result ≡ error_result (parsed_of x) }
{
    match x {
        Err(e) => ErrorResult {
            refusal: u32::from(e),
            device: 0,
            status: 0,
            operation: 0,
        },
        Ok((i, _)) => ErrorResult {
            refusal: 0,
            device: i.device,
            status: i.status,
            operation: i.operation,
        },
    }
}

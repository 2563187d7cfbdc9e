// One error, and a run of errors.
ghost use Rattle.std.specs.Prelude.{◌≡◌};
ghost use Rattle.xdr.specs.Parsed.{end_of, many_at};
ghost use Rattle.xdr.specs.Answers.{parsed_of, parsed_of_end};
ghost use Rattle.report.specs.Reports.{error_fits, error_at};

use crate::ErrorItem;
use base::{DEVICE_ID_SIZE, Fault};
use xdr::{Cursor, Read};

#[tactic(auto, unfolding(crate::specs::Reports::error_fits))]
pub fn error_fits(status: u32, operation: u32) -> bool
    ensures { result ≡ error_fits status operation }
{
    status != 0 && matches!(operation, 5 | 25 | 38)
}

#[tactic(auto, unfolding(crate::specs::Reports::error_at, xdr::specs::Parsed::then, base::specs::Answer::pick))]
pub fn read_error(s: &[u8], c: Cursor) -> Read<ErrorItem>
    ensures { parsed_of result ≡ error_at s.now c.at }
{
    let (device, c1) = xdr::read_bytes(s, c, DEVICE_ID_SIZE)?;
    let (status, c2) = xdr::read_u32(s, c1)?;
    let (operation, c3) = xdr::read_u32(s, c2)?;
    if !error_fits(status, operation) {
        return Err(Fault::ErrorInvalid);
    }
    let item = ErrorItem {
        device: device.start,
        status,
        operation,
    };
    Ok((item, c3))
}

// n errors, one after the other: where they end.
pub(crate) fn read_errors(s: &[u8], c: Cursor, n: u32) -> Result<Cursor, Fault>
    ensures { parsed_of_end result ≡ end_of (many_at error_at n s.now c.at) }
{
    let mut d = c;
    for _ in 0..n {
        (_, d) = read_error(s, d)?;
    }
    Ok(d)
}

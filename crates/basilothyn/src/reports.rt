// Error reports and layout returns, written.
ghost use Rattle.std.specs.Prelude.{◌≡◌, length};
ghost use Rattle.base.specs.Lists.{length_of};
ghost use Rattle.report.specs.Writing.{output_after, reports_written, return_written};
ghost use Rattle.base.specs.Results.{answered};
ghost use Rattle.error_list.specs.Entries.{entries_of};
ghost use Rattle.basilothyn.specs.ReportCalls.{write_result};

use base::{REPORT_ENTRIES, Refusal};
use error_list::ErrorEntry;
use report::{Outgoing, ReportHead};

// C passes no array by value.
#[repr(C)]
#[derive(Clone, Copy)]
pub struct ReportHeads {
    pub heads: [ReportHead; REPORT_ENTRIES],
}

// The length is 0 after a refusal.
#[repr(C)]
#[derive(Clone, Copy)]
pub struct WriteResult {
    pub refusal: u32,
    pub length: u64,
}

#[tactic(auto, unfolding(crate::specs::ReportCalls::write_result))]
fn result_of(w: Result<usize, Refusal>) -> WriteResult
    ensures { result ≡ write_result (answered w) }
{
    match w {
        Ok(n) => WriteResult {
            refusal: 0,
            length: n as u64,
        },
        Err(e) => WriteResult {
            refusal: u32::from(e),
            length: 0,
        },
    }
}

pub fn basilothyn_write_report(
    count: u32,
    heads: ReportHeads,
    errors: &[ErrorEntry],
    out: &mut [u8],
) -> WriteResult
    ensures { (result ≡ write_result (length_of
        (reports_written count heads.heads (entries_of errors.now) (length out.old))))
        × (out.new ≡ output_after out.old
        (reports_written count heads.heads (entries_of errors.now) (length out.old))) }
{
    let written = error_list::write_error_list(count, heads.heads, errors, out);
    result_of(written)
}

pub fn basilothyn_write_return(
    outgoing: Outgoing,
    errors: &[ErrorEntry],
    out: &mut [u8],
) -> WriteResult
    ensures { (result ≡ write_result (length_of
        (return_written outgoing (entries_of errors.now) (length out.old))))
        × (out.new ≡ output_after out.old
        (return_written outgoing (entries_of errors.now) (length out.old))) }
{
    let written = error_list::write_return_list(outgoing, errors, out);
    result_of(written)
}

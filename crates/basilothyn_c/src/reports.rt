// Error reports and layout returns, written.
ghost use Rattle.std.specs.Prelude.{◌≡◌, length};
ghost use Rattle.base.specs.Lists.{length_of};
ghost use Rattle.report.specs.Writing.{output_after, reports_written, return_written};
ghost use Rattle.error_list.specs.Entries.{entries_of};
ghost use Rattle.basilothyn.specs.ReportCalls.{write_result};

use basilothyn::{ReportHeads, WriteResult};
use error_list::ErrorEntry;
use report::Outgoing;

#[unsafe(no_mangle)]
pub extern "C" fn basilothyn_write_report(
    count: u32,
    heads: ReportHeads,
    errors: &[ErrorEntry],
    out: &mut [u8],
) -> WriteResult
    ensures { (result ≡ write_result (length_of
        (reports_written count heads.heads (entries_of errors.now) (length out.old))))
        × (out.new ≡ output_after out.old
        (reports_written count heads.heads (entries_of errors.now) (length out.old))) }
{
    basilothyn::basilothyn_write_report(count, heads, errors, out)
}

#[unsafe(no_mangle)]
pub extern "C" fn basilothyn_write_return(
    outgoing: Outgoing,
    errors: &[ErrorEntry],
    out: &mut [u8],
) -> WriteResult
    ensures { (result ≡ write_result (length_of
        (return_written outgoing (entries_of errors.now) (length out.old))))
        × (out.new ≡ output_after out.old
        (return_written outgoing (entries_of errors.now) (length out.old))) }
{
    basilothyn::basilothyn_write_return(outgoing, errors, out)
}

// Error reports, written from one borrowed list of error entries.
#![tactic(auto)]

ghost use Rattle.std.specs.Prelude.{◌≡◌, [], ◌∷◌, ◌++◌, ◌+◌, ◌*◌, ◌≤◌, min, length, take};
ghost use Rattle.base.specs.Limits.{error_size, most_errors_in_all};
ghost use Rattle.base.specs.Lists.{length_of};
ghost use Rattle.report.specs.Writing.{output_after, entries_at, reports_written, return_written};
ghost use Rattle.base.specs.Results.{answered};
ghost use Rattle.error_list.specs.Entries.{entry_of, entries_of};

use base::{
    DEVICE_ID_SIZE, ERROR_LIST_SIZE, ERROR_SIZE, MOST_ERRORS_IN_ALL, REPORT_ENTRIES, Refusal,
};
use report::{Outgoing, ReportHead};

// One error of the list, laid out as a caller in C lays it out.
#[repr(C)]
#[derive(Clone, Copy)]
pub struct ErrorEntry {
    pub device: [u8; DEVICE_ID_SIZE],
    pub status: u32,
    pub operation: u32,
}

// How many entries of the list are looked at: eight reports of 16 errors have no more.
fn entries_used(list_length: usize) -> usize
    ensures { result ≡ min list_length most_errors_in_all }
{
    list_length.min(MOST_ERRORS_IN_ALL)
}

// Entry i of the wire entries in a buffer. Those before it stay.
fn put_entry(buf: &mut [u8], i: usize, error: ErrorEntry)
    requires { error_size * (i + 1) ≤ length buf.old }
    ensures { entries_at (i + 1) buf.new 0
        ≡ entries_at i buf.old 0 ++ (entry_of error ∷ []) }
{
    let at = ERROR_SIZE * i;
    report::put_error(buf, at, &error.device, error.status, error.operation);
}

// The entries of a list, as wire entries.
fn put_entries(buf: &mut [u8], errors: &[ErrorEntry])
    requires { error_size * length errors.now ≤ length buf.old }
    ensures { entries_at (length errors.now) buf.new 0 ≡ entries_of errors.now }
{
    for (i, error) in errors.iter().enumerate() {
        put_entry(buf, i, *error);
    }
}

// The body, from the list of errors.
pub fn write_error_list(
    count: u32,
    heads: [ReportHead; REPORT_ENTRIES],
    errors: &[ErrorEntry],
    out: &mut [u8],
) -> Result<usize, Refusal>
    ensures { (answered result ≡ length_of
        (reports_written count heads (entries_of errors.now) (length out.old)))
        × (out.new ≡ output_after out.old
        (reports_written count heads (entries_of errors.now) (length out.old))) }
{
    let n = entries_used(errors.len());
    let mut entries = [0u8; ERROR_LIST_SIZE];
    put_entries(&mut entries, &errors[..n]);
    report::write_reports(count, heads, errors.len(), &entries, out)
}

// A layout return, from the list of errors.
pub fn write_return_list(
    outgoing: Outgoing,
    errors: &[ErrorEntry],
    out: &mut [u8],
) -> Result<usize, Refusal>
    ensures { (answered result ≡ length_of
        (return_written outgoing (entries_of errors.now) (length out.old)))
        × (out.new ≡ output_after out.old
        (return_written outgoing (entries_of errors.now) (length out.old))) }
{
    let n = entries_used(errors.len());
    let mut entries = [0u8; ERROR_LIST_SIZE];
    put_entries(&mut entries, &errors[..n]);
    report::write_return(outgoing, errors.len(), &entries, out)
}

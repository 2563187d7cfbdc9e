// Error entries and reports stored into a buffer.
ghost use Rattle.std.specs.Prelude.{◌≡◌, ◌+◌, ◌*◌, ◌≤◌, length};
ghost use Rattle.std.proofs.lemmas.List.Edits.{sets};
ghost use Rattle.base.specs.Limits.{error_size, most_reports, report_head_size};
ghost use Rattle.octets.specs.Buffers.{stored};
ghost use Rattle.report.specs.Writing.{StoredHead, counts, error_bytes, errors_bytes};
ghost use Rattle.report.specs.Writing.{entries_at, reports_bytes};

use crate::{REPORT_COUNT_OFFSET, REPORT_LENGTH_OFFSET, REPORT_STATEID_OFFSET, ReportHead};
use base::{ERROR_SIZE, REPORT_HEAD_SIZE};

// One wire entry: the device id, which has 16 bytes where it is one, then status and operation. Where it does not
// fit, the buffer stays as it was. Two numbers stored one after the other would go byte by byte, so the device id is
// stored between them.
pub fn put_error(buf: &mut [u8], at: usize, device: &[u8], status: u32, operation: u32)
    ensures { buf.new ≡ stored buf.old at
        (error_bytes (record { device = device.entry.now; status = status; operation = operation })) }
{
    let n = device.len();
    if buf.len() < at {
        return;
    }
    let room = buf.len() - at;
    if room < n {
        return;
    }
    if room - n < 8 {
        return;
    }
    octets::put_be4(buf, at + n, status);
    octets::put_bytes(buf, at, device);
    octets::put_be4(buf, at + n + 4, operation);
}

// The n entries from an offset on. They are in wire form already.
fn put_errors(out: &mut [u8], at: usize, errors: &[u8], from: usize, n: usize)
    requires { (at + error_size * n ≤ length out.old) × (from + error_size * n ≤ length errors.now) }
    ensures { out.new ≡ sets out.old at
        (errors_bytes (entries_at n errors.now from)) }
{
    let to = from + ERROR_SIZE * n;
    octets::put_bytes(out, at, &errors[from..to]);
}

fn put_head(out: &mut [u8], at: usize, head: ReportHead)
    requires { at + report_head_size ≤ length out.old }
    ensures { StoredHead out.old at head out.new }
{
    octets::put_be8(out, at, head.offset);
    octets::put_be8(out, at + REPORT_LENGTH_OFFSET, head.length);
    octets::put_bytes(out, at + REPORT_STATEID_OFFSET, &head.stateid);
    octets::put_be4(out, at + REPORT_COUNT_OFFSET, head.errors);
}

// The reports in order, from offset 4 on.
pub(crate) fn put_reports(out: &mut [u8], heads: &[ReportHead], errors: &[u8])
    requires { (length heads.now ≤ most_reports)
        × (4 + report_head_size * length heads.now + error_size * counts heads.now ≤ length out.old)
        × (error_size * counts heads.now ≤ length errors.now) }
    ensures { out.new ≡ sets out.old 4 (reports_bytes heads.now (entries_at (counts heads.now) errors.now 0)) }
{
    let mut p: usize = 4;
    let mut from: usize = 0;
    for head in heads {
        let n = head.errors as usize;
        put_head(out, p, *head);
        put_errors(out, p + REPORT_HEAD_SIZE, errors, from, n);
        p += REPORT_HEAD_SIZE + ERROR_SIZE * n;
        from += ERROR_SIZE * n;
    }
}

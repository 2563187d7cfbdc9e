// Records stored into a buffer. Those of no fixed size answer the offset after them, and say how far on it is at most:
// a caller cannot see how long the arrays of an element are.
ghost use Rattle.std.specs.Prelude.{◌≡◌, true, ◌++◌, ◌+◌, ◌≤◌, length, take};
ghost use Rattle.std.proofs.lemmas.List.Edits.{sets};
ghost use Rattle.base.specs.Limits.{longest_address, longest_filehandle, longest_netid, longest_statistic};
ghost use Rattle.xdr.specs.Items.{opaque_bytes};
ghost use Rattle.statistics.specs.StatisticBytes.{PutAt, io_info_bytes, latency_bytes, netaddr_bytes};
ghost use Rattle.statistics.specs.StatisticBytes.{statistic_bytes, time_bytes, update_bytes};
ghost use Rattle.statistics.specs.StatisticChecks.{lengths_fit};

use crate::{IoInfo, Latency, LayoutUpdate, Netaddr, Statistic, Time};

const TIME_SIZE: usize = 12;

const LATENCY_SIZE: usize = 64;

fn put_time(out: &mut [u8], at: usize, t: Time)
    requires { at + 12 ≤ length out.old }
    ensures { out.new ≡ sets out.old at (time_bytes t) }
{
    octets::put_be8(out, at, t.seconds);
    octets::put_be4(out, at + 8, t.nanoseconds);
}

fn put_io_info(out: &mut [u8], at: usize, i: IoInfo)
    requires { at + 16 ≤ length out.old }
    ensures { out.new ≡ sets out.old at (io_info_bytes i) }
{
    octets::put_be8(out, at, i.count);
    octets::put_be8(out, at + 8, i.bytes);
}

fn put_latency(out: &mut [u8], at: usize, l: Latency)
    requires { at + 64 ≤ length out.old }
    ensures { out.new ≡ sets out.old at (latency_bytes l) }
{
    octets::put_be8(out, at, l.ops_requested);
    octets::put_be8(out, at + 8, l.bytes_requested);
    octets::put_be8(out, at + 16, l.ops_completed);
    octets::put_be8(out, at + 24, l.bytes_completed);
    octets::put_be8(out, at + 32, l.bytes_not_delivered);
    put_time(out, at + 40, l.busy);
    put_time(out, at + 52, l.completion);
}

// Length, bytes and padding.
fn put_opaque(out: &mut [u8], at: usize, src: &[u8]) -> usize
    requires { (length src.now ≤ longest_filehandle) × (at + length (opaque_bytes src.now) ≤ length out.old) }
    ensures { PutAt out.old at (opaque_bytes src.now) out.new result }
{
    let n = src.len();
    let pad = (4 - n % 4) % 4;
    octets::put_be4(out, at, n as u32);
    octets::put_bytes(out, at + 4, src);
    octets::put_zeros(out, at + 4 + n, pad);
    at + 4 + n + pad
}

fn put_netaddr(out: &mut [u8], at: usize, a: Netaddr) -> usize
    requires { (a.netid.length ≤ longest_netid) × (a.text.length ≤ longest_address)
        × (at + 80 ≤ length out.old) }
    ensures { (PutAt out.old at (netaddr_bytes a) out.new result) × (result ≤ at + 80) }
{
    let n = a.netid.length as usize;
    let p = put_opaque(out, at, &a.netid.bytes[..n]);
    let m = a.text.length as usize;
    put_opaque(out, p, &a.text.bytes[..m])
}

// The file at a server: the address and the filehandle.
#[tactic(auto, using(crate::proofs::PutLaws::lengths_in))]
fn put_place(out: &mut [u8], at: usize, u: LayoutUpdate) -> usize
    requires { (lengths_fit u ≡ true) × (at + 212 ≤ length out.old) }
    ensures { (PutAt out.old at
        (netaddr_bytes u.address ++ opaque_bytes (take u.filehandle.length u.filehandle.bytes))
        out.new result) × (result ≤ at + 212) }
{
    let p = put_netaddr(out, at, u.address);
    let n = u.filehandle.length as usize;
    put_opaque(out, p, &u.filehandle.bytes[..n])
}

fn put_update(out: &mut [u8], at: usize, u: LayoutUpdate) -> usize
    requires { (lengths_fit u ≡ true) × (at + 356 ≤ length out.old) }
    ensures { (PutAt out.old at (update_bytes u) out.new result) × (result ≤ at + 356) }
{
    let q = put_place(out, at, u);
    put_latency(out, q, u.read);
    put_latency(out, q + LATENCY_SIZE, u.write);
    put_time(out, q + 2 * LATENCY_SIZE, u.duration);
    octets::put_be4(out, q + 2 * LATENCY_SIZE + TIME_SIZE, u.local);
    q + 2 * LATENCY_SIZE + TIME_SIZE + 4
}

pub(crate) fn put_statistic(out: &mut [u8], at: usize, r: Statistic) -> usize
    requires { (lengths_fit r.update ≡ true) × (at + longest_statistic ≤ length out.old) }
    ensures { (PutAt out.old at (statistic_bytes r) out.new result)
        × (result ≤ at + longest_statistic) }
{
    octets::put_be8(out, at, r.offset);
    octets::put_be8(out, at + 8, r.length);
    octets::put_bytes(out, at + 16, &r.stateid);
    put_io_info(out, at + 32, r.read);
    put_io_info(out, at + 48, r.write);
    octets::put_bytes(out, at + 64, &r.device);
    put_update(out, at + 80, r.update)
}

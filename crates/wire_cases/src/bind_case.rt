// A binding. The payload has: mirror, stripe, supported versions, device id, layout length, layout body, device body.
use crate::arrays::id_at;
use base::{MirrorNumber, Refusal, StripeNumber};
use binding::Bound;
use print::Refused;
use std::io;
use std::io::Write;

// Where the layout body is.
const LAYOUT_AT: usize = 32;

// The entry that was chosen, and the filehandle.
fn print_entry(out: &mut impl Write, b: &Bound) -> io::Result<()> {
    write!(
        out,
        " entry={} version={}.{} filehandle={}+{}",
        b.entry, b.version.version, b.version.minor, b.filehandle.start, b.filehandle.len
    )
}

fn print_names(out: &mut impl Write, b: &Bound) -> io::Result<()> {
    write!(
        out,
        " user={}+{} group={}+{}",
        b.user.start, b.user.len, b.group.start, b.group.len
    )
}

fn print_bound(out: &mut impl Write, b: &Bound) -> io::Result<()> {
    print_entry(out, b)?;
    if b.version.tight {
        return write!(out, " stateid={}", b.stateid);
    }
    print_names(out, b)
}

fn print_binding(out: &mut impl Write, b: Result<Bound, Refusal>) -> io::Result<()> {
    write!(out, "bind")?;
    match b {
        Err(e) => write!(out, "{}", Refused(e)),
        Ok(v) => print_bound(out, &v),
    }
}

// What a layout body and a device body are bound to.
fn bind(payload: &[u8], layout: &[u8], device: &[u8]) -> Result<Bound, Refusal> {
    let mirror = MirrorNumber(octets::le4(payload, 0));
    let stripe = StripeNumber(octets::le4(payload, 4));
    let supported = octets::le4(payload, 8);
    let id = id_at(payload, 12);
    binding::bind(layout, mirror, stripe, device, &id, supported)
}

pub fn print_bind(out: &mut impl Write, payload: &[u8]) -> io::Result<()> {
    let size = octets::le4(payload, 28) as usize;
    let start = LAYOUT_AT;
    let end = start + size;
    if payload.len() < end {
        return Ok(());
    }
    let b = bind(payload, &payload[start..end], &payload[end..]);
    print_binding(out, b)
}

// Where an I/O goes.
use base::Refusal;
use print::Refused;
use route::Piece;
use segments::Table;
use std::io;
use std::io::Write;

fn print_piece(out: &mut impl Write, p: Piece) -> io::Result<()> {
    write!(
        out,
        " iomode={} slot={} stripe={} offset={} length={} mirrors={}",
        u32::from(p.iomode),
        p.slot.0,
        p.stripe.0,
        p.offset,
        p.length,
        p.mirrors
    )
}

fn print_located(out: &mut impl Write, write: bool, l: Result<Piece, Refusal>) -> io::Result<()> {
    let name = if write { "write-at" } else { "read-at" };
    write!(out, "{name}")?;
    match l {
        Err(e) => write!(out, "{}", Refused(e)),
        Ok(p) => print_piece(out, p),
    }
}

// The payload has offset and length. The core is given the store's first `borrowed` bytes.
pub fn print_locate(
    out: &mut impl Write,
    write: bool,
    payload: &[u8],
    table: Table,
    store: &[u8],
    borrowed: usize,
) -> io::Result<()> {
    if store.len() < borrowed {
        return Ok(());
    }
    let offset = octets::le8(payload, 0);
    let len = octets::le8(payload, 8);
    let l = route::locate(table, &store[..borrowed], write, offset, len);
    print_located(out, write, l)
}

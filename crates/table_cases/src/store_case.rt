// The body store: for each slot the length that it says, and a checksum of its bytes.
use base::{SLOT_COUNT, SlotNumber};
use std::io;
use std::io::Write;

// Below 2^32, and a prime.
const MODULUS: u64 = 4294967291;

fn checksum(s: &[u8]) -> u32 {
    s.iter().fold(0u32, |c, byte| {
        ((u64::from(c) * 257 + u64::from(*byte)) % MODULUS) as u32
    })
}

fn print_slot(out: &mut impl Write, store: &[u8], i: u32) -> io::Result<()> {
    let slot = store::slot_bytes(store, SlotNumber(i));
    write!(out, " {}:{}", octets::le4(slot, 0), checksum(slot))
}

pub fn print_store(out: &mut impl Write, store: &[u8]) -> io::Result<()> {
    write!(out, "shelf")?;
    for i in 0..SLOT_COUNT {
        print_slot(out, store, i)?;
    }
    Ok(())
}

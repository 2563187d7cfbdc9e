// The answer to an I/O request.
use base::{Iomode, SlotNumber, StripeNumber};

// The part of a request that one data server of each named mirror takes. The mirrors are a set of bits, bit 0 being
// mirror 0.
#[derive(Clone, Copy)]
pub struct Piece {
    pub iomode: Iomode,
    pub slot: SlotNumber,
    pub stripe: StripeNumber,
    pub offset: u64,
    pub length: u64,
    pub mirrors: u32,
}

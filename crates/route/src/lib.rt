// Where an I/O goes: the right at its first byte, then the stripe, the piece and the mirrors of the layout body under
// which that byte is held.
#![tactic(auto)]

mod mirrors;
mod piece;
mod request;
mod rights;
mod stripes;

pub use piece::Piece;
pub use request::locate;

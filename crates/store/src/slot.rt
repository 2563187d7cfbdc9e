// What is in a slot: its bytes, and the length, kind and body that they say.
ghost use Rattle.std.specs.Prelude.{◌≡◌, ◌&&◌};
ghost use Rattle.octets.specs.Numbers.{bytes_from, same_bytes};
ghost use Rattle.store.specs.Store.{body_in, kind_in, length_in, slot_at};

use crate::start;
use base::{SLOT_HEAD_SIZE, SLOT_SIZE, SlotNumber};

// The n bytes from an offset; fewer where the bytes run out.
fn bytes_from(s: &[u8], at: usize, n: usize) -> &[u8]
    ensures { result.now ≡ bytes_from n s.now at }
{
    let len = s.len();
    if len < at {
        return &s[len..len];
    }
    if len - at < n {
        return &s[at..len];
    }
    let end = at + n;
    &s[at..end]
}

pub fn slot_bytes(store: &[u8], i: SlotNumber) -> &[u8]
    ensures { result.now ≡ slot_at store.now i.0 }
{
    bytes_from(store, start(i), SLOT_SIZE)
}

pub fn slot_length(slot: &[u8]) -> u32
    ensures { result ≡ length_in slot.now }
{
    octets::le4(slot, 0)
}

pub fn slot_kind(slot: &[u8]) -> u32
    ensures { result ≡ kind_in slot.now }
{
    octets::le2(slot, 4)
}

pub fn slot_body(slot: &[u8]) -> &[u8]
    ensures { result.now ≡ body_in slot.now }
{
    let n = slot_length(slot) as usize;
    bytes_from(slot, SLOT_HEAD_SIZE, n)
}

// Whether a slot holds a body: one that no segment names holds none.
pub fn holds_body(named: bool, store: &[u8], i: SlotNumber, body: &[u8]) -> bool
    ensures { result ≡ (named && same_bytes body.now (body_in (slot_at store.now i.0))) }
{
    if !named {
        return false;
    }
    octets::same(body, slot_body(slot_bytes(store, i)))
}

// Arrays of bytes in a payload.

// Makes an array the bytes at an offset; leaves it where they run out.
pub(crate) fn fill(array: &mut [u8], s: &[u8], at: usize) {
    let size = array.len();
    if s.len() < at {
        return;
    }
    if s.len() - at < size {
        return;
    }
    let end = at + size;
    octets::put_bytes(array, 0, &s[at..end]);
}

// A device id or a stateid; 0 where its bytes run out.
pub(crate) fn id_at(s: &[u8], at: usize) -> [u8; 16] {
    let mut id = [0u8; 16];
    fill(&mut id, s, at);
    id
}

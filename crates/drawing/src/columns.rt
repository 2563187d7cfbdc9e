// The columns of a chart: one piece after the other.
use base::{MOST_MIRRORS, MirrorNumber, StripeNumber};
use print::digits;

// The bytes from an offset on, and where they go. Without mirrors there is no right.
#[derive(Clone, Copy)]
pub struct Column {
    pub offset: u64,
    pub length: u64,
    pub stripe: StripeNumber,
    pub mirrors: u32,
}

#[derive(Clone, Copy)]
pub struct Columns {
    pub items: [Column; 64],
    pub count: usize,
}

impl Columns {
    // Those that the chart has.
    pub(crate) fn shown(&self) -> &[Column] {
        &self.items[..self.count.min(self.items.len())]
    }
}

// Whether the bytes of a column go to the server of a mirror and a stripe.
pub(crate) fn goes_to(c: &Column, m: MirrorNumber, k: StripeNumber) -> bool {
    if MOST_MIRRORS <= m.0 {
        return false;
    }
    if c.mirrors >> m.0 & 1 == 0 {
        return false;
    }
    c.stripe.0 == k.0
}

// How many digits the longest offset or length has, at least six.
pub(crate) fn widest(columns: &Columns) -> u64 {
    let mut width: u64 = 6;
    for c in columns.shown() {
        width = width.max(digits(c.offset));
        if c.mirrors != 0 {
            width = width.max(digits(c.length));
        }
    }
    width
}

// What a chart shows.
use crate::columns::Columns;
use base::{MOST_STARTS, MirrorNumber, StripeNumber};
use layout::Summary;
use layout4::Layout4;
use server::SERVER_EFFICIENCY_OFFSET;

#[derive(Clone, Copy)]
pub struct ChartInput {
    pub layout: Layout4,
    pub summary: Summary,
    pub starts: [u16; MOST_STARTS],
    pub columns: Columns,
}

// Where in the file a mirror's server starts, with its device id.
pub(crate) fn server_at(s: &ChartInput, m: MirrorNumber, k: StripeNumber) -> usize {
    let start = s.layout.body.start;
    if 65536 < start {
        return start;
    }
    start + layout::start_of(s.starts, m, k) as usize
}

// The efficiency of the server that starts at an offset; 0 where its bytes run out.
pub(crate) fn efficiency_at(bytes: &[u8], at: usize) -> u32 {
    if bytes.len() < at {
        return 0;
    }
    octets::be4(&bytes[at..], SERVER_EFFICIENCY_OFFSET)
}

// One record with the offsets of its bytes: `ff_iostats4`.
ghost use Rattle.std.specs.Prelude.{◌≡◌};
ghost use Rattle.xdr.specs.Answers.{parsed_of};
ghost use Rattle.statistics.specs.Statistics.{item_at};

use crate::IoInfo;
use crate::latencies::read_io_info;
use crate::updates::{UpdateItem, read_update};
use base::{DEVICE_ID_SIZE, STATEID_SIZE};
use xdr::{Cursor, Range, Read};

// A `Statistic` whose bytes are still in the body: `stateid` and `device` are offsets.
#[derive(Clone, Copy)]
pub struct StatisticItem {
    pub range: Range,
    pub stateid: usize,
    pub read: IoInfo,
    pub write: IoInfo,
    pub device: usize,
    pub update: UpdateItem,
}

#[tactic(auto, unfolding(crate::specs::Statistics::item_at, xdr::specs::Parsed::then))]
pub(crate) fn read_item(s: &[u8], c: Cursor) -> Read<StatisticItem>
    ensures { parsed_of result ≡ item_at s.now c.at }
{
    let (range, c1) = xdr::read_range(s, c)?;
    let (stateid, c2) = xdr::read_bytes(s, c1, STATEID_SIZE)?;
    let (read, c3) = read_io_info(s, c2)?;
    let (write, c4) = read_io_info(s, c3)?;
    let (device, c5) = xdr::read_bytes(s, c4, DEVICE_ID_SIZE)?;
    let (update, c6) = read_update(s, c5)?;
    Ok((
        StatisticItem {
            range,
            stateid: stateid.start,
            read,
            write,
            device: device.start,
            update,
        },
        c6,
    ))
}

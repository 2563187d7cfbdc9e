// The statistics after the reports: where they end, and what they are.
ghost use Rattle.std.specs.Prelude.{◌≡◌, replicate};
ghost use Rattle.base.specs.Limits.{most_statistics};
ghost use Rattle.xdr.specs.Answers.{parsed_of_end, parsed_of_list};
ghost use Rattle.xdr.specs.Parsed.{end_of};
ghost use Rattle.statistics.specs.Statistics.{blank_statistic, entries_read, statistic_entries_at, statistics_at};

use crate::item::read_item;
use crate::record::statistic_of;
use crate::{
    AddressText, Filehandle, IoInfo, Latency, LayoutUpdate, Netaddr, Netid, Statistic, Time,
};
use base::{
    ADDRESS_SIZE, DEVICE_ID_SIZE, FILEHANDLE_SIZE, Fault, MOST_STATISTICS, NETID_SIZE,
    STATEID_SIZE, STATISTIC_ENTRIES,
};
use xdr::{Cursor, Read};

// The count, and the records in the first entries; the others are blank. The entries are beside the answer because
// each is promised to be blank after a refusal too.
#[derive(Clone, Copy)]
pub struct StatisticList {
    pub answer: Read<u32>,
    pub entries: [Statistic; STATISTIC_ENTRIES],
}

const NO_TIME: Time = Time {
    seconds: 0,
    nanoseconds: 0,
};

const NO_IO: IoInfo = IoInfo { count: 0, bytes: 0 };

const NO_LATENCY: Latency = Latency {
    ops_requested: 0,
    bytes_requested: 0,
    ops_completed: 0,
    bytes_completed: 0,
    bytes_not_delivered: 0,
    busy: NO_TIME,
    completion: NO_TIME,
};

const NO_UPDATE: LayoutUpdate = LayoutUpdate {
    address: Netaddr {
        netid: Netid {
            length: 0,
            bytes: [0u8; NETID_SIZE],
        },
        text: AddressText {
            length: 0,
            bytes: [0u8; ADDRESS_SIZE],
        },
    },
    filehandle: Filehandle {
        length: 0,
        bytes: [0u8; FILEHANDLE_SIZE],
    },
    read: NO_LATENCY,
    write: NO_LATENCY,
    duration: NO_TIME,
    local: 0,
};

// What is in an entry without a record.
pub const NO_STATISTIC: Statistic = Statistic {
    offset: 0,
    length: 0,
    stateid: [0u8; STATEID_SIZE],
    read: NO_IO,
    write: NO_IO,
    device: [0u8; DEVICE_ID_SIZE],
    update: NO_UPDATE,
};

// Where they end: every record is judged, none is kept.
pub fn statistics_end(s: &[u8], c: Cursor) -> Result<Cursor, Fault>
    ensures { parsed_of_end result ≡ end_of (statistics_at s.now c.at) }
{
    let (n, mut d) = xdr::read_count(s, c, 0, MOST_STATISTICS)?;
    for _ in 0..n {
        (_, d) = read_item(s, d)?;
    }
    Ok(d)
}

// The records put into blank entries, up to the first that is refused.
fn read_entries(s: &[u8], c: Cursor, entries: &mut [Statistic; STATISTIC_ENTRIES]) -> Read<u32>
    requires { entries.old ≡ replicate most_statistics blank_statistic }
    ensures { parsed_of_list entries.new result ≡ statistic_entries_at s.now c.at }
{
    let (n, mut d) = xdr::read_count(s, c, 0, MOST_STATISTICS)?;
    for i in 0..n as usize {
        let (item, next) = read_item(s, d)?;
        entries[i] = statistic_of(s, item);
        d = next;
    }
    Ok((n, d))
}

// Each entry is blank after a refusal.
pub fn read_list(s: &[u8], c: Cursor) -> StatisticList
    ensures { (parsed_of_list result.entries result.answer ≡ statistic_entries_at s.now c.at)
        × (result.entries ≡ entries_read (statistic_entries_at s.now c.at)) }
{
    let mut entries = [NO_STATISTIC; STATISTIC_ENTRIES];
    let answer = read_entries(s, c, &mut entries);
    if answer.is_err() {
        entries = [NO_STATISTIC; STATISTIC_ENTRIES];
    }
    StatisticList { answer, entries }
}

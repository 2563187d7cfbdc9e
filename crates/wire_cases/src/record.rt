// Records of statistics in a payload. Where their items are: the table of docs/ANSWERS.md.
ghost use Rattle.std.specs.Prelude.{◌+◌, ◌≤◌};
ghost use Rattle.wire_cases.specs.Forms.{record_size};

use crate::arrays::{fill, id_at};
use crate::form::RECORD_SIZE;
use base::{ADDRESS_SIZE, FILEHANDLE_SIZE, NETID_SIZE, STATISTIC_ENTRIES};
use statistics::{
    AddressText, Filehandle, IoInfo, Latency, LayoutUpdate, NO_STATISTIC, Netaddr, Netid,
    Statistic, Time,
};

const LENGTH_AT: usize = 8;

const STATEID_AT: usize = 16;

const READ_AT: usize = 32;

const WRITE_AT: usize = 48;

const DEVICE_AT: usize = 64;

const NETID_AT: usize = 80;

const ADDRESS_AT: usize = 92;

const FILEHANDLE_AT: usize = 160;

const READ_LATENCY_AT: usize = 292;

const WRITE_LATENCY_AT: usize = 356;

const DURATION_AT: usize = 420;

const LOCAL_AT: usize = 432;

fn time_of(r: &[u8], at: usize) -> Time
    requires { at + 12 ≤ record_size }
{
    Time {
        seconds: octets::le8(r, at),
        nanoseconds: octets::le4(r, at + 8),
    }
}

fn io_info_of(r: &[u8], at: usize) -> IoInfo
    requires { at + 16 ≤ record_size }
{
    IoInfo {
        count: octets::le8(r, at),
        bytes: octets::le8(r, at + 8),
    }
}

fn latency_of(r: &[u8], at: usize) -> Latency
    requires { at + 64 ≤ record_size }
{
    let busy = time_of(r, at + 40);
    let completion = time_of(r, at + 52);
    Latency {
        ops_requested: octets::le8(r, at),
        bytes_requested: octets::le8(r, at + 8),
        ops_completed: octets::le8(r, at + 16),
        bytes_completed: octets::le8(r, at + 24),
        bytes_not_delivered: octets::le8(r, at + 32),
        busy,
        completion,
    }
}

fn netid_of(r: &[u8]) -> Netid {
    let mut bytes = [0u8; NETID_SIZE];
    fill(&mut bytes, r, NETID_AT + 4);
    Netid {
        length: octets::le4(r, NETID_AT),
        bytes,
    }
}

fn address_of(r: &[u8]) -> Netaddr {
    let netid = netid_of(r);
    let mut bytes = [0u8; ADDRESS_SIZE];
    fill(&mut bytes, r, ADDRESS_AT + 4);
    let text = AddressText {
        length: octets::le4(r, ADDRESS_AT),
        bytes,
    };
    Netaddr { netid, text }
}

fn filehandle_of(r: &[u8]) -> Filehandle {
    let mut bytes = [0u8; FILEHANDLE_SIZE];
    fill(&mut bytes, r, FILEHANDLE_AT + 4);
    Filehandle {
        length: octets::le4(r, FILEHANDLE_AT),
        bytes,
    }
}

fn update_of(r: &[u8]) -> LayoutUpdate {
    let address = address_of(r);
    let filehandle = filehandle_of(r);
    let read = latency_of(r, READ_LATENCY_AT);
    let write = latency_of(r, WRITE_LATENCY_AT);
    let duration = time_of(r, DURATION_AT);
    LayoutUpdate {
        address,
        filehandle,
        read,
        write,
        duration,
        local: octets::le4(r, LOCAL_AT),
    }
}

fn record_of(r: &[u8]) -> Statistic {
    let stateid = id_at(r, STATEID_AT);
    let read = io_info_of(r, READ_AT);
    let write = io_info_of(r, WRITE_AT);
    let device = id_at(r, DEVICE_AT);
    let update = update_of(r);
    Statistic {
        offset: octets::le8(r, 0),
        length: octets::le8(r, LENGTH_AT),
        stateid,
        read,
        write,
        device,
        update,
    }
}

// The records after a count; blank in the entries past it.
pub(crate) fn records_of(tail: &[u8], count: u32) -> [Statistic; STATISTIC_ENTRIES] {
    let mut records = [NO_STATISTIC; STATISTIC_ENTRIES];
    for i in 0..STATISTIC_ENTRIES.min(count as usize) {
        let at = 4 + RECORD_SIZE * i;
        let end = at + RECORD_SIZE;
        if tail.len() < end {
            return records;
        }
        records[i] = record_of(&tail[at..end]);
    }
    records
}

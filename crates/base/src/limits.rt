// The limits and sizes of the scope, once each. A count that is read is a u32; `.._ENTRIES` is how many entries an
// array has for what is counted.

// "body at most 4,090 bytes"
pub const LONGEST_BODY: usize = 4090;

// "1 to 8 mirrors"
pub const MOST_MIRRORS: u32 = 8;

// "1 to 16 servers a mirror"
pub const MOST_SERVERS: u32 = 16;

// "where each server starts, by mirror and by stripe .. with 0 in unused places": a row of entries for each mirror
pub const MIRROR_ENTRIES: usize = MOST_MIRRORS as usize;

pub const ROW_ENTRIES: usize = MOST_SERVERS as usize;

pub const MOST_STARTS: usize = MIRROR_ENTRIES * ROW_ENTRIES;

// "1 to 8 filehandles a server"
pub const MOST_FILEHANDLES: u32 = 8;

// "a filehandle of 1 to 128 bytes"
pub const LONGEST_FILEHANDLE: u32 = 128;

// "user and group of 0 to 64 bytes"
pub const LONGEST_NAME: u32 = 64;

// "Flags are bits 1 .., 2 .., 4 .., 8 ..; any other bit is refused"
pub const KNOWN_FLAGS: u32 = 15;

// "the set of spoken versions (bits 1, 2, 4, 8 for 3, 4.0, 4.1, 4.2)"
pub const EVERY_VERSION: u32 = 15;

// "device id (16)"
pub const DEVICE_ID_SIZE: usize = 16;

// "stateid (16: a 4-byte seqid and 12 more)"
pub const STATEID_SIZE: usize = 16;

// A device body: "At most 2,048 bytes".
pub const LONGEST_DEVICE_BODY: usize = 2048;

// "address count (1 to 8)"
pub const MOST_ADDRESSES: u32 = 8;

pub const ADDRESS_ENTRIES: usize = MOST_ADDRESSES as usize;

// "a netid (1 to 8 bytes)"
pub const LONGEST_NETID: u32 = 8;

// "an address (1 to 64 bytes)"
pub const LONGEST_ADDRESS: u32 = 64;

// "version count (1 to 8)"
pub const MOST_VERSIONS: u32 = 8;

pub const VERSION_ENTRIES: usize = MOST_VERSIONS as usize;

// "at most 32 an iomode"
pub const MOST_SEGMENTS: usize = 32;

// "8 slots of 4,096"
pub const SLOT_COUNT: u32 = 8;

pub const SLOT_ENTRIES: usize = SLOT_COUNT as usize;

pub const SLOT_SIZE: usize = 4096;

// "a lent buffer of 32,768 bytes"
pub const STORE_SIZE: usize = SLOT_ENTRIES * SLOT_SIZE;

// What is before the body in a slot: "length (4 bytes, little-endian), kind (2 bytes, little-endian, value 4)".
pub const SLOT_HEAD_SIZE: usize = 6;

// "Report count (0 to 8)"
pub const MOST_REPORTS: u32 = 8;

pub const REPORT_ENTRIES: usize = MOST_REPORTS as usize;

// "error count (1 to 16)", of one report
pub const MOST_ERRORS: u32 = 16;

// The errors of all reports together.

pub const MOST_ERRORS_IN_ALL: usize = REPORT_ENTRIES * MOST_ERRORS as usize;

// A report before its errors: "offset, length .., stateid, error count".
pub const REPORT_HEAD_SIZE: usize = 36;

// "errors of device id, status, operation"
pub const ERROR_SIZE: usize = 24;

// "one lent list of records", of all errors of all reports
pub const ERROR_LIST_SIZE: usize = MOST_ERRORS_IN_ALL * ERROR_SIZE;

// "Read and write up to 8 `ff_iostats4` records" (C-13)
pub const MOST_STATISTICS: u32 = 8;

pub const STATISTIC_ENTRIES: usize = MOST_STATISTICS as usize;

// The arrays of a record, as long as the longest netid, address and filehandle.
pub const NETID_SIZE: usize = LONGEST_NETID as usize;

pub const ADDRESS_SIZE: usize = LONGEST_ADDRESS as usize;

pub const FILEHANDLE_SIZE: usize = LONGEST_FILEHANDLE as usize;

// The longest record: 80 bytes before the netid, three lengths, the longest netid, address and filehandle, and 144
// bytes after them.
pub const LONGEST_STATISTIC: usize = 80 + 12 + NETID_SIZE + ADDRESS_SIZE + FILEHANDLE_SIZE + 144;

// The count and the longest records.
pub const LONGEST_STATISTICS: usize = 4 + STATISTIC_ENTRIES * LONGEST_STATISTIC;

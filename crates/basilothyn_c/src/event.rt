// The events.
ghost use Rattle.std.specs.Prelude.{◌≡◌};
ghost use Rattle.model.specs.Model.{Grant, Recall, Return, Revoke};
ghost use Rattle.basilothyn.specs.Calls.{event_on_record, empty_record, record_result_of};

use abi_table::TableRecord;
use basilothyn::EventResult;

#[unsafe(no_mangle)]
pub extern "C" fn basilothyn_empty_table() -> TableRecord
    ensures { result ≡ empty_record }
{
    basilothyn::basilothyn_empty_table()
}

#[unsafe(no_mangle)]
pub extern "C" fn basilothyn_grant(
    table: TableRecord,
    store: &mut [u8],
    bytes: &[u8],
) -> EventResult
    ensures { record_result_of result store.new
        ≡ event_on_record (Grant bytes.now) table store.old }
{
    basilothyn::basilothyn_grant(table, store, bytes)
}

#[unsafe(no_mangle)]
pub extern "C" fn basilothyn_return(
    table: TableRecord,
    store: &mut [u8],
    offset: u64,
    len: u64,
    iomode: u32,
) -> EventResult
    ensures { record_result_of result store.new
        ≡ event_on_record (Return offset len iomode) table store.old }
{
    basilothyn::basilothyn_return(table, store, offset, len, iomode)
}

#[unsafe(no_mangle)]
pub extern "C" fn basilothyn_recall(
    table: TableRecord,
    store: &mut [u8],
    offset: u64,
    len: u64,
    iomode: u32,
) -> EventResult
    ensures { record_result_of result store.new
        ≡ event_on_record (Recall offset len iomode) table store.old }
{
    basilothyn::basilothyn_recall(table, store, offset, len, iomode)
}

#[unsafe(no_mangle)]
pub extern "C" fn basilothyn_revoke(table: TableRecord, store: &mut [u8]) -> EventResult
    ensures { record_result_of result store.new ≡ event_on_record Revoke table store.old }
{
    basilothyn::basilothyn_revoke(table, store)
}

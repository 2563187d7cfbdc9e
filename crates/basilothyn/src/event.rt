// The events. A refused one gives back the record that it was handed, and leaves the store as it was.
ghost use Rattle.std.specs.Prelude.{◌≡◌};
ghost use Rattle.abi_table.specs.TableRecords.{record_of};
ghost use Rattle.model.specs.Model.{Grant, Recall, Return, Revoke};
ghost use Rattle.events.specs.Answers.{event_of, number_of_verdict};
ghost use Rattle.basilothyn.specs.Calls.{event_on_record, empty_record, record_result_of};

use abi_table::TableRecord;
use base::Refusal;
use events::{Event, Numbers, Outcome};

#[repr(C)]
#[derive(Clone, Copy)]
pub struct EventResult {
    pub refusal: u32,
    pub table: TableRecord,
}

fn verdict_number(v: Result<(), Refusal>) -> u32
    ensures { result ≡ number_of_verdict v }
{
    match v {
        Ok(()) => 0,
        Err(e) => u32::from(e),
    }
}

fn result_of(o: Outcome) -> EventResult
    ensures { result ≡ record { refusal = number_of_verdict o.verdict; table = record_of o.table } }
{
    EventResult {
        refusal: verdict_number(o.verdict),
        table: abi_table::record_of(o.table),
    }
}

fn unsound(table: TableRecord) -> EventResult
    ensures { result ≡ record { refusal = 20; table = table } }
{
    EventResult {
        refusal: u32::from(Refusal::Unsound),
        table,
    }
}

pub fn basilothyn_empty_table() -> TableRecord
    ensures { result ≡ empty_record }
{
    abi_table::record_of(segments::empty_table())
}

// The record is borrowed: one by value would be copied once more.
fn call(table: &TableRecord, store: &mut [u8], e: Event, bytes: &[u8]) -> EventResult
    ensures { record_result_of result store.new
        ≡ event_on_record (event_of e bytes.now) table.now store.old }
{
    let Some(t) = abi_table::table_of(*table) else {
        return unsound(*table);
    };
    result_of(events::apply(t, store, e, bytes))
}

pub fn basilothyn_grant(table: TableRecord, store: &mut [u8], bytes: &[u8]) -> EventResult
    ensures { record_result_of result store.new
        ≡ event_on_record (Grant bytes.now) table store.old }
{
    call(&table, store, Event::Grant, bytes)
}

pub fn basilothyn_return(
    table: TableRecord,
    store: &mut [u8],
    offset: u64,
    len: u64,
    iomode: u32,
) -> EventResult
    ensures { record_result_of result store.new
        ≡ event_on_record (Return offset len iomode) table store.old }
{
    let n = Numbers {
        offset,
        len,
        iomode,
    };
    call(&table, store, Event::Return(n), b"")
}

pub fn basilothyn_recall(
    table: TableRecord,
    store: &mut [u8],
    offset: u64,
    len: u64,
    iomode: u32,
) -> EventResult
    ensures { record_result_of result store.new
        ≡ event_on_record (Recall offset len iomode) table store.old }
{
    let n = Numbers {
        offset,
        len,
        iomode,
    };
    call(&table, store, Event::Recall(n), b"")
}

pub fn basilothyn_revoke(table: TableRecord, store: &mut [u8]) -> EventResult
    ensures { record_result_of result store.new ≡ event_on_record Revoke table store.old }
{
    call(&table, store, Event::Revoke, b"")
}

// Where an I/O goes.
ghost use Rattle.std.specs.Prelude.{◌≡◌, true, false};
ghost use Rattle.basilothyn.specs.Calls.{routed_on};

use abi_table::TableRecord;
use basilothyn::LocateResult;

#[unsafe(no_mangle)]
pub extern "C" fn basilothyn_locate_read(
    table: TableRecord,
    store: &[u8],
    offset: u64,
    len: u64,
) -> LocateResult
    ensures { result ≡ routed_on false table store.now offset len }
{
    basilothyn::basilothyn_locate_read(table, store, offset, len)
}

#[unsafe(no_mangle)]
pub extern "C" fn basilothyn_locate_write(
    table: TableRecord,
    store: &[u8],
    offset: u64,
    len: u64,
) -> LocateResult
    ensures { result ≡ routed_on true table store.now offset len }
{
    basilothyn::basilothyn_locate_write(table, store, offset, len)
}

// Where an I/O goes.
ghost use Rattle.std.specs.Prelude.{◌≡◌, true, false};
ghost use Rattle.base.specs.Answer.{refused};
ghost use Rattle.base.specs.Refusals.{number_of};
ghost use Rattle.base.specs.Results.{answered};
ghost use Rattle.basilothyn.specs.Calls.{locate_result, routed_on};

use abi_table::TableRecord;
use base::Refusal;
use route::Piece;

// The mirrors are a set of bits, bit 0 being mirror 0. After a refusal all else is 0.
#[repr(C)]
#[derive(Clone, Copy)]
pub struct LocateResult {
    pub refusal: u32,
    pub iomode: u32,
    pub slot: u32,
    pub stripe: u32,
    pub offset: u64,
    pub length: u64,
    pub mirrors: u32,
}

#[tactic(auto, unfolding(crate::specs::Calls::locate_result))]
fn refused(e: Refusal) -> LocateResult
    ensures { result ≡ locate_result (refused (number_of e)) }
{
    LocateResult {
        refusal: u32::from(e),
        iomode: 0,
        slot: 0,
        stripe: 0,
        offset: 0,
        length: 0,
        mirrors: 0,
    }
}

#[tactic(auto, unfolding(crate::specs::Calls::locate_result))]
fn result_of(l: Result<Piece, Refusal>) -> LocateResult
    ensures { result ≡ locate_result (answered l) }
{
    match l {
        Err(e) => refused(e),
        Ok(p) => LocateResult {
            refusal: 0,
            iomode: u32::from(p.iomode),
            slot: p.slot.0,
            stripe: p.stripe.0,
            offset: p.offset,
            length: p.length,
            mirrors: p.mirrors,
        },
    }
}

fn locate(table: &TableRecord, store: &[u8], write: bool, offset: u64, len: u64) -> LocateResult
    ensures { result ≡ routed_on write table.now store.now offset len }
{
    let Some(t) = abi_table::table_of(*table) else {
        return refused(Refusal::Unsound);
    };
    result_of(route::locate(t, store, write, offset, len))
}

pub fn basilothyn_locate_read(
    table: TableRecord,
    store: &[u8],
    offset: u64,
    len: u64,
) -> LocateResult
    ensures { result ≡ routed_on false table store.now offset len }
{
    locate(&table, store, false, offset, len)
}

pub fn basilothyn_locate_write(
    table: TableRecord,
    store: &[u8],
    offset: u64,
    len: u64,
) -> LocateResult
    ensures { result ≡ routed_on true table store.now offset len }
{
    locate(&table, store, true, offset, len)
}

// What the program keeps from case to case, next to the body store.
use base::STORE_SIZE;
use segments::Table;

#[derive(Clone, Copy)]
pub struct State {
    pub table: Table,
    // How many bytes of the store a call borrows.
    pub borrowed: usize,
}

pub(crate) fn start() -> State {
    State {
        table: segments::empty_table(),
        borrowed: STORE_SIZE,
    }
}

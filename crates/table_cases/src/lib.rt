// The cases that show the table, the body store, and where an I/O goes by them. Each writes its line but for the end.
#![tactic(auto)]

mod locate_case;
mod store_case;
mod table_case;

pub use locate_case::print_locate;
pub use store_case::print_store;
pub use table_case::print_table;

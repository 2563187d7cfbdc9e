// The cases of bodies on the wire: each is put to the core, and its line is written but for the end.
#![tactic(auto)]

mod arrays;
mod bind_case;
mod device_case;
mod form;
mod layout4_case;
mod layout_case;
mod record;
mod report_read_case;
mod report_write_case;
mod return_write_case;
mod statistics_case;

pub use bind_case::print_bind;
pub use device_case::print_device;
pub use form::{is_bind, is_report_write, is_return_write};
pub use layout_case::print_layout;
pub use layout4_case::print_layout4;
pub use report_read_case::print_report_read;
pub use report_write_case::print_report_write;
pub use return_write_case::print_return_write;

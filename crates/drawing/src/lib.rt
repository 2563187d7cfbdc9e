// The stripe chart of a layout, drawn in text or as an SVG picture.
#![tactic(auto)]

mod caption;
mod columns;
mod input;
mod picture;
mod text;

pub use columns::{Column, Columns};
pub use input::ChartInput;
pub use picture::draw_picture;
pub use text::draw_text;

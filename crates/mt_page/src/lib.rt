//! The rows of a page of a directory, read from its lines.
//!
//! - `row`: a row, as a page tells it. `fields`: what stands in a line.
//! - `reading`: a line, and the lines of a page. `order`: rows whose names rise.
//! - `laws`: the page of a store is read as its rows.
#![tactic(auto)]

mod fields;
pub mod laws;
mod order;
mod reading;
mod row;

pub use reading::read_page;
pub use row::{PageRow, PageRows, RowKind};

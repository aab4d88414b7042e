//! Paths of an account: an area, and components below it.
//!
//! - `path`: the type, with what is above, below and beside a path, and its text; `order`: its order.
//! - `names`: paths from request targets and from texts, by their `pieces`.
//! - `key`: the one byte string that a path is held as.
//! - `component`: which bytes may stand in a path, and which name an account; `area`, `limits`, `error`.
//! - `laws`: a printed path is read again; the order is total and exact; a child is below its parent.
#![tactic(auto)]

mod area;
mod component;
mod error;
mod key;
pub mod laws;
mod limits;
mod names;
mod order;
mod path;
mod pieces;

pub use area::Area;
pub use component::{is_component, is_login};
pub use error::PathError;
pub use key::{behind_first, first_part};
pub use limits::{LONGEST_COMPONENT, LONGEST_LOGIN, LONGEST_PATH, constants_are};
pub use mt_base::{Bytes, Duplicate, Sequence, Text};
pub use names::target_names;
pub use path::Path;
pub use pieces::query_at;

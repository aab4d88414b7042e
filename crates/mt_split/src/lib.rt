//! The lines of a text, shared out among reducers by the digest of their keys.
//!
//! - `key`: which part of a line is its key. `routing`: the reducer of a key.
//! - `laws`: lines and fields are all of a text.
//! - `places`: where a byte stands. `parts`: the lines of each reducer, in their order.
#![tactic(auto)]

mod key;
mod laws;
mod parts;
mod places;
mod routing;

pub use key::{KeyRule, key_of};
pub use laws::{fields_are_the_line, lines_are_the_text};
pub use parts::{Parts, Span, split};
pub use routing::route;

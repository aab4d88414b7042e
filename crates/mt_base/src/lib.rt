//! What every other crate cites: lists, texts and bytes that contracts see as lists, copies that equal
//! their source, and the words for counts, lists and numbers (`specs/`).
//!
//! - `bytes`, `text`, `sequence`: the three small types, by which plain data is built.
//! - `duplicate`: the one trait for copies.
//! - `blanks`: spaces and tabs; `plain`: zeros, and ASCII as a text; `limits`: what numbers are bounded by.
//! - `specs/Blanks`, `specs/Counts`, `specs/Lists`, `specs/Numbers`: blanks, counts that never fall, prefixes, numbers as bytes and text.
#![tactic(auto)]

mod blanks;
mod bytes;
mod duplicate;
mod limits;
mod plain;
mod sequence;
mod text;

pub use blanks::{is_blank, trimmed};
pub use bytes::Bytes;
pub use duplicate::{Duplicate, copy_all};
pub use limits::{LAST_MOMENT, NUMBERS_END};
pub use plain::{ascii, zeros};
pub use sequence::Sequence;
pub use text::Text;

//! Commands as bytes: one spelling a command, by a grammar that the code does not share.
//!
//! - `decoding`, `encoding`: a command from bytes, and its bytes; `piece`: pieces of bodies; `laws`.
//! - `numbers`, `pieces`, `values`: fields, read from a cursor.
//! - `writing`: fields, appended to a vector; `spelled`: values in lists. `fields`: all of these, for other records.
//! - `specs/Fields`, `Spelling`: the grammar, within the limits of values; `Reading`, `Readers`: reading by it.
#![tactic(auto)]

mod decoding;
mod encoding;
mod error;
pub mod fields;
pub mod laws;
mod numbers;
mod piece;
mod pieces;
mod spelled;
mod values;
mod writing;

pub use decoding::decode;
pub use encoding::encode;
pub use error::DecodeError;
pub use piece::is_piece;

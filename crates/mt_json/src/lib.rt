//! JSON values (RFC 8259) that are read from their texts, and lines that each are one.
//!
//! - `reading`: the value that bytes are, and the first line of bytes.
//! - `laws`: what is written is read again.
//! - `specs/Plain`: values without floats; `specs/Lines`: lines.
#![tactic(auto)]

mod laws;
mod reading;

pub use laws::values_read_again;
pub use reading::{first_line, read_value};

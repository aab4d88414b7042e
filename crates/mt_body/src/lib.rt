//! Bodies in the log: the bytes of an object as pieces of at most 65,536 bytes, one behind the other, and a reference to them.
//!
//! - `fill`, `pieces`: from a source into a run of records. `digest`: the rest of a source, which isn't stored.
//! - `part`, `send`: from the log into a slice, and to a sink.
//! - `specs/Stored`: which bytes a reference names. `specs/Storing`, `specs/Sending`: what storing and sending do. `laws`: a stored body stays.
#![tactic(auto)]

mod digest;
mod fill;
pub mod laws;
mod part;
mod pieces;
mod send;

pub use digest::{Drained, digest_rest};
pub use part::read_body;
pub use pieces::{Storing, store};
pub use send::{Sent, send_body};

//! Replies as a client reads them from a link (RFC 9112): the head, behind interim ones, and the body.
//!
//! - `reply`: a head as it is read, and what may stand in its place.
//! - `head`: one head is read; `interim`: those before it are passed over. `fields`: the fields of a head.
//! - `length`: how long the body is. `body`: it is read, or copied to a sink.
//! - `laws`: what bytes are as a reply is one thing.
//! - `specs/Replies`: what a reply is; `specs/Reading`: what each call reads.
#![tactic(auto)]

mod body;
mod fields;
mod head;
mod interim;
pub mod laws;
mod length;
mod reply;

pub use body::{copy_body, read_reply_body};
pub use interim::{is_interim, read_reply_head};
pub use length::reply_len;
pub use reply::{Copied, ReplyHead, ReplyReadEnd};

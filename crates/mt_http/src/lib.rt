//! Requests read from a source of bytes, and replies written to a sink (RFC 9112).
//!
//! - `message`: a request and its head as they are read, and what may stand in their place.
//! - `receive`: the next message of a source: `head` finds where its head ends, `request` and `framing` say what
//!   the head says, `options` what it asks for.
//! - `stream`: the body as a source, over `stage` and `chunk`, which follow it byte by byte; `body` holds one.
//! - `reply`: the bytes of replies. `laws`: what bytes are is one thing.
//! - `specs/Message`, `specs/Body`, `specs/Framing`: what a head says, what a body is, what stands at a place;
//!   `specs/ReplyText`: the bytes of a reply.
#![tactic(auto)]

mod body;
mod chunk;
mod framing;
mod head;
pub mod laws;
mod message;
mod options;
mod receive;
mod reply;
mod request;
mod stage;
mod stream;

pub use body::read_body;
pub use framing::Framing;
pub use head::{HeadRead, find_head};
pub use message::{Ending, Head, Message, MessageEnd};
pub use mt_types::{Field, Fields, Reply, ReplyBody};
pub use options::{closes, limit_of, wants_interim};
pub use receive::{read_head, read_message};
pub use reply::{ReplyEnd, write_head, write_interim, write_reply};
pub use stream::BodyStream;

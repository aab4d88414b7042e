//! The replies of the store, one function each (RFC 9110). A reply is generic in its body: a reference into the log
//! where the store sends it, and the list of its bytes where its meaning is told.
//!
//! - `stamp`: what every reply says. `fields`: the fields of replies.
//! - `replies`: the replies.
#![tactic(auto)]

mod fields;
mod replies;
mod stamp;

pub use replies::{
    done_reply, error_reply, live_reply, made_reply, object_reply, page_reply, part_reply,
    stored_reply, taken_reply, unchanged_reply,
};
pub use stamp::Stamp;

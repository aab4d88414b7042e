//! One connection over an account: messages are answered in turn, each with a turn of tasks behind it, until it ends.
//!
//! - `connection`: the messages of a link; `turning`: one exchange, a message and the turn behind it; `answering`: one message, its
//!   interim reply, its body, its answer and its reply.
//! - `end`: how a connection ends, and what one message more does to it.
//! - `receive`: a head and the interim reply behind it; `respond`: a reply; `refuse`: what is no message.
//! - `laws`: what the bytes of a source say of its end is one thing, and what a message adds is a step of the life of a store.
//!
//! In `specs/` begin with `Transcript`, the exchanges of a connection, and `Endings`, its ends; `Sides` is what both change; its part that is
//! no link, and turns, are words of `mt_runner` (`Account`, `Turning`). `Steps` says what the parts do, `Outcomes` what the bytes alone say.
#![tactic(auto)]

mod answering;
mod connection;
mod end;
pub mod laws;
mod receive;
mod refuse;
mod respond;
mod turning;

pub use connection::serve_connection;
pub use end::{ConnectionEnd, Step};
pub use turning::exchange;

//! A history of commands and its log: the state that the log stands for, over references to the bodies in it.
//!
//! - `engine`: the value that callers hold; `publish`: the end of a run; `send`: the bodies of its state. `archive`: the texts of a job as it ends.
//! - `open`: a log that is there, by `mt_opening`, which also says what a history is and how an engine stands to it. `laws`: what holds of both.
//! - `specs/Ready`: what the calls of an engine ask and keep. `Accepting`, `Archiving`, `Reading`: what they do.
#![tactic(auto)]

mod archive;
mod archiving;
mod engine;
pub mod laws;
mod open;
mod publish;
mod send;

pub use archiving::Archiving;
pub use engine::{Accepted, Engine};
pub use publish::RunEnd;

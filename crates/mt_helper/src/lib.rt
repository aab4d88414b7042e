//! The helpers of a task: what they are asked for, and the records that they make.
//!
//! - `tool`, `status`, `options`, `limits`: the types. `words`, `placing`: what words ask for.
//! - `spooling`: files by the lowest number that is free. `streaming`: a record of what is read, piece by piece.
//! - `records`: records one by one. `helping`: the one call.
#![tactic(auto)]

mod helping;
mod limits;
mod options;
mod placing;
mod records;
mod spooling;
mod status;
mod streaming;
mod tool;
mod words;

pub use helping::helper;
pub use limits::constants_are;
pub use status::{Refusal, Status};
pub use tool::Tool;

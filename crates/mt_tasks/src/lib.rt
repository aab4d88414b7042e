//! The bytes of tasks: what one reads, and what becomes of what it leaves.
//!
//! - `bodies`, `input`, `launching`: a child is started on what its task reads.
//! - `windows`, `judging`: what it left is judged. `sizes`, `room`: whether that has room. `storing`, `adding`: it is committed.
//! - `outcomes`: all of that as one call; a job is ended.
#![tactic(auto)]

mod adding;
mod bodies;
mod input;
mod judging;
mod launching;
mod outcomes;
mod room;
mod sizes;
mod stored;
mod storing;
mod windows;

pub use launching::{Launched, launch};
pub use outcomes::{OutcomeEnd, close_job, take_outcome};

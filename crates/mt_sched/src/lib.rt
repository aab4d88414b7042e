//! Kept queues of the tasks of jobs.
//!
//! - `phase`: the places of a phase that are not committed. `queue`: the phases of a job. `sched`: all jobs that run.
//! - `laws`: what is read of a plan is what the plain lists of a job say, and plans change as jobs do.
#![tactic(auto)]

pub mod laws;
mod phase;
mod queue;
mod sched;

pub use phase::PhaseQueue;
pub use queue::Queue;
pub use sched::Sched;

//! What is kept of one job beside it: where the outputs of its tasks stand, and the shares of its reducers.
//!
//! - `kept`: the type, with what each phase reads. `noting`: the same by a trace. `shares`: the shares of the reducers. `reading`: what a task reads.
#![tactic(auto)]

mod kept;
mod noting;
mod reading;
mod shares;

pub use kept::{At, FedJob, count_of};

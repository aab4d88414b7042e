//! The runner: it takes turns at the tasks of an account. It knows children and slots, and reads no byte.
//!
//! - `runner`: what it keeps. `turn`: how a turn ends.
//! - `stale`: children that are let go. `fill`: slots are filled. `awaiting`: children are waited for. `turning`: turns and drains. `laws`.
#![tactic(auto)]

mod awaiting;
mod fill;
pub mod laws;
mod runner;
mod stale;
mod turn;
mod turning;

pub use runner::{Runner, Started};
pub use turn::Turn;

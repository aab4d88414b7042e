//! The order of a task: what its command is run with, but for the bytes that it reads.
//!
//! - `orders`: the order of a task. `base`: what the names of its outputs begin with.
//! - `laws`: an order over the bytes that come with it is the run of its task.
#![tactic(auto)]

mod base;
mod laws;
mod orders;

pub use laws::orders_are_runs;
pub use orders::order_of;

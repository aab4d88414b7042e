//! The jobs of an account beside its tree, with what is kept of each.
//!
//! - `jobs`: the type, and a job by its number. `refusals`: the tests of commands. `making`, `inputs`, `ends`, `commit`: the changes.
//! - `listed`: jobs taken from a list, in place of commands.
//! - `reading`: what a task reads, and what may run. `pages`: the jobs that run, and those that are done.
#![tactic(auto)]

mod commit;
mod ends;
mod inputs;
mod jobs;
mod listed;
mod making;
mod pages;
mod reading;
mod refusals;

pub use jobs::Jobs;
pub use making::may_make_job;
pub use mt_types::JobStand;

//! The certificates of jobs: written line by line, and what is proved of them.
//!
//! - `writing`: a certificate is written. `fits`: whether its lines are within the limits.
//! - `names`: the lines of inputs and outputs; `tasks`: of tasks. `shares`: what the reducers of a phase read.
//! - `page`: lines on their way to a sink. `known`: items by the sums of their bodies. `held`: what values keep by their types.
//! - `laws`: the certificate of a finished job adds up, and its text is accepted.
#![tactic(auto)]

mod fits;
mod held;
mod known;
mod laws;
mod names;
mod page;
mod shares;
mod tasks;
mod writing;

pub use fits::certificate_fits;
pub use laws::{certify_adds_up, certify_is_accepted, certify_is_written};
pub use writing::{Written, write_certificate};

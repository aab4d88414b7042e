//! Whether bytes are the certificate of a job, and what is the first wrong line.
//!
//! - `checking`: the check of a source. `judging`: the judgement on its lines; `lines`: the lines, one by one.
//! - `checker`: a checker of lines. `following`: a line behind others; `opening`: the next phase that has a place.
//! - `state`: what is kept of the lines so far; `sheet`: of the phase that is being listed; `feed`: of what a phase reads.
//! - `limits`: limits of certificates. `laws`: the judgement is exact.
#![tactic(auto)]

mod checker;
mod checking;
mod feed;
mod following;
mod judging;
mod laws;
mod limits;
mod lines;
mod opening;
mod sheet;
mod state;

pub use checker::{Checked, Checker};
pub use checking::{CheckEnd, check};
pub use laws::{checker_exact, written_is_accepted};
pub use limits::{LONGEST_LINE, MOST_LINES};

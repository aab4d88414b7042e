//! A log that is there, opened: the history that its payloads stand for, and the account that this makes.
//!
//! - `open`: the log of a disk, and its account; `opening`: why it can't be opened. `load`: its payloads, one behind the other; `places`: where pieces stand;
//!   `digest`: of bodies.
//! - `specs/History`: the history that payloads stand for. `specs/Current`: how a log and a state stand to it. `laws`: what holds of both.
//! - `specs/Opening`, `Looking`, `Places`: how a log is opened.
#![tactic(auto)]

mod digest;
pub mod laws;
mod load;
mod open;
mod opening;
mod places;

pub use open::open_log;
pub use opening::{OpenEnd, Unreadable};

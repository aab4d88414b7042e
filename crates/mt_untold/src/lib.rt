//! A disk in memory that tells nothing of what it holds, for the programs that play rows.
//!
//! - `untold`: the disk. `picks`: what a crash leaves of its calls, as a row names it.
#![tactic(auto)]

mod picks;
mod untold;

pub use picks::picks_of;
pub use untold::Untold;

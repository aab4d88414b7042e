//! Stored bodies joined into one: their bytes are added to a run of the log once more, one behind another, as one body.
//!
//! - `fill`: from the parts into a buffer. `pieces`: from the buffer into the run.
//! - `specs/Joining`: which bytes the parts have together, and what a join does by its answer. `specs/Filling`: what is left of the parts.
#![tactic(auto)]

mod fill;
mod pieces;

pub use pieces::{Joining, join, pieces_size};

//! The headline: what holds of a store, whatever happened to it.
//!
//! - `laws`: it holds of each chain of runs; and what the status and the last fields of each answer say. `specs/Headline`: what it is.
//! - `lives`: a run of the program is such a life.
//! - `worked`: a chain of two runs, and runs that are no chain.
#![tactic(auto)]

pub mod laws;
pub mod lives;
pub mod worked;

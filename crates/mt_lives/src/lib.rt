//! The lives of a store: what becomes of attempts at tasks, of crashes, and of runs one behind the other.
//!
//! - `laws`: each step of the life of an account (`specs/World`) keeps it valid.
//! - `worked`: a worked life, computed from the definitions.
//! - `proofs/Chains`: what runs told of stays, whatever runs follow (`specs/Lives`).
#![tactic(auto)]

pub mod laws;
pub mod worked;

//! What the words of a client ask for is what the store is asked for.
//!
//! - `laws`: the head that words make is read, and asks for what the words ask for.
//! - `specs/Understood`: what words ask for, in the store's own terms.
#![tactic(auto)]

mod laws;

pub use laws::asks_are_understood;

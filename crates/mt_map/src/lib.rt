//! The rows of an account are a map from paths to entries.
//!
//! - `laws`: what each command changes, and what stays. `specs/Map`: the words.
#![tactic(auto)]

pub mod laws;

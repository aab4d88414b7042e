//! The certificate of a job whose bodies are in a log, and the words that ask for one.
//!
//! - `words`: what the words behind `certify` and `check` ask for.
//! - `laws`: the certificate of a job over references is that over the bytes that they stand for, and that of a finished job is accepted.
//!
//! In `specs/` begin with `Certified`; `CertifyWords` is the grammar.
#![tactic(auto)]

pub mod laws;
mod words;

pub use words::{CertifyWords, WordsError, WordsFault, read_check};

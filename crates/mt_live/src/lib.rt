//! Texts that are made of an account's state when they are asked for.
//!
//! - `listing`: a line of a page of a directory, or of the folders of jobs; JSON (RFC 8259).
#![tactic(auto)]

mod listing;

pub use listing::{job_line, page_line};

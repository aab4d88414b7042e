//! Why requests are refused: one table of all errors, and what a refusal's reply says besides its code.
//!
//! - `code`: each error with its status, its name and its words.
//! - `refused`: an error with the methods of a path, or the size of an object.
#![tactic(auto)]

mod code;
mod refused;

pub use code::ErrorCode;
pub use refused::{Methods, More, Refused};

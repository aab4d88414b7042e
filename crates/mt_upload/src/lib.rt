//! The uploads of an account beside its tree: objects that are put in parts, and appear all at once.
//!
//! - `uploads`: the type, and an upload by its number. `refusals`: the tests of commands, and how many bytes parts have together.
//! - `parts`: the parts of an upload, by their index. `changes`: what commands make of uploads and rows.
#![tactic(auto)]

mod changes;
mod parts;
mod refusals;
mod uploads;

pub use refusals::may_begin;
pub use uploads::Uploads;

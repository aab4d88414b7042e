//! The state of an account, over references to bodies: its rows, its jobs and the number of its commands.
//!
//! - `account`: the state, and the commands that it takes. `rows`, `jobs`: commands on rows, and on jobs, over its parts.
//! - `spelled`: each command of the program has a spelling. `specs/Taken`: which commands are taken. `specs/Kept`: what it keeps.
#![tactic(auto)]

mod account;
mod jobs;
mod rows;
mod spelled;

pub use account::Account;
pub use jobs::is_taken;
pub use spelled::has_spelling;

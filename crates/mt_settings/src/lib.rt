//! The words of the command line, and what they ask for.
//!
//! - `settings`: what the words ask for; `options`: their options, each read by its name.
//! - `fault`: why words ask for nothing.
//! - `specs/Words`: the grammar, read from the front on.
#![tactic(auto)]

mod fault;
mod options;
mod settings;

pub use fault::{OptionName, SettingsError, UsageFault};
pub use settings::{Mode, Settings};

//! The texts of a job, as they are asked for while it runs and kept when it is done: what it read and made, what failed, its tasks and
//! its status.
//!
//! - `whole`: a text. `sizes`: how long it is. `lengths`: how long names are. `lines`: a text as a source.
//! - `window`: a part of a text that is written piece by piece. `quotes`: numbers and JSON in it.
//! - `pieces`: the pieces of the texts. `fill`: all of them in a window, or from a place on. `names`, `errors`, `tasks`, `status`, `phases`: what stands in them.
//! - `found`: what a task of a job read. `stats`: how much there is of a job.
//! - `laws`: no text looks at bodies; archives of a history; which jobs have texts.
#![tactic(auto)]

mod errors;
mod fill;
mod found;
mod laws;
mod lengths;
mod lines;
mod names;
mod phases;
mod pieces;
mod quotes;
mod sizes;
mod stats;
mod status;
mod tasks;
mod whole;
mod window;

pub use laws::{archives_are_texts, lawful_is_showable, texts_look_at_no_bodies};
pub use lines::Lines;
pub use mt_types::LiveText;
pub use sizes::{closed_len, text_len};
pub use stats::line_count;
pub use whole::{closed_text, live_text};

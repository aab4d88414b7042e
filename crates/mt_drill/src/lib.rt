//! The drill: a stored account that the program makes, runs and tells of by itself, over children in memory.
//!
//! - `words`: what the words behind the command ask for.
//! - `top`: `drill`, the call that the program makes, with all that is promised of it; `end`: how it ended, and its number.
//! - `look`: what a drill finds.
//! - `session`: a session of `mt_server` over a drill's messages; `replies`: how many replies it gave.
//! - `line`: the line that says what the account has then; `figures`: its parts; `text`: words and numbers.
//!
//! In `specs/` begin with `Drilled`; `DrillLine` is the line, `DrillWords` the grammar.
#![tactic(auto)]

mod end;
mod figures;
mod line;
mod look;
mod replies;
mod session;
mod text;
mod top;
mod words;

pub use end::DrillEnd;
pub use top::drill;
pub use words::{DrillWords, WordsError, WordsFault};

//! The top call: the words are read, the store is opened, and one session or many connections are served.
//!
//! - `top`: `mantad`, the call that the program makes, with all that is promised of it; `run`: the command that the words ask for.
//! - `session`: one connection over a source and a sink, and a drain of tasks behind it; `serve`: turns of the links of a door, one
//!   after another, and a drain behind each; `came`: what a call at the door came to.
//! - `opening`: the store, or why it can't be opened; `line`: the line that says so.
//! - `laws`: events go on, and so do runs, as lives of one store.
//! - `status`: how a run ended, and its number.
//!
//! In `specs/` begin with `Guarantees`; `Statuses` says what each status means, `Events` what many connections are, `Lines` what is
//! written where nothing is served, `Chains` what holds over many runs, `Running` what the calls within a run ask
//! and leave.
#![tactic(auto)]

mod came;
pub mod laws;
mod line;
mod opening;
mod run;
mod serve;
mod session;
mod status;
mod top;

pub use line::{say, unreadable_line};
pub use status::{ServeEnd, Status};
pub use top::mantad;

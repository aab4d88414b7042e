//! What each request is answered: a reply and at most one command, by the account, the log's room, the request and its moment.
//! No disk is called here.
//!
//! - `judge`: why a request is refused, in the one order of all refusals, and whether its body is stored.
//! - `command`: the command that does it. `done`: the reply to what is done. `look`: to what is looked at; `page`: the rows of a page.
//! - `posted`: what a body asks of jobs. `job_judge`, `job_command`, `job_done`, `job_page`: the same of what is asked of jobs.
//! - `laws`: answers over references are those over the bytes that they stand for; what isn't refused may be done.
//! - `specs/Whole`: the answer (`answer_of`). `specs/Judging`, `specs/Answer`: the order of refusals and the answer where something is asked of
//!   objects and directories; `specs/JobJudging`, `specs/JobAnswer`: the same of jobs.
#![tactic(auto)]

mod command;
mod done;
mod job_command;
mod job_done;
mod job_judge;
pub mod job_laws;
mod job_page;
mod judge;
pub mod laws;
mod look;
mod page;
mod posted;

pub use command::command_of;
pub use done::reply_to;
pub use job_command::job_command_of;
pub use job_done::job_reply_to;
pub use job_judge::job_refusal_of;
pub use judge::{refusal_of, stores_body};
pub use posted::{Posted, posted_of};

//! The answer to each request, over an engine, its disk and the streamed body of the request.
//!
//! - `request`: the one call, `answer`. `answered`: what becomes of a request. `call`: a request as it was read from its head.
//! - `put`: puts of objects, whose body is stored. `perform`: all others. `bodies`: reading a body to its end.
//! - `change`: the command that ends a run. `refuse`: the end of a run without one, and refusals.
//! - `job`: what is asked of jobs; `hold`: a body that is held; `job_change`: the command that does it; `cancel`: a job with its texts.
//! - `specs/Answered`: what the call promises. `specs/Steps`, `specs/Jobs`: what its steps do. `specs/GoingOn`: what they all ask and keep.
#![tactic(auto)]

mod answered;
mod bodies;
mod call;
mod cancel;
mod change;
mod hold;
mod job;
mod job_change;
mod perform;
mod put;
mod refuse;
mod request;

pub use answered::Answered;
pub use request::answer;

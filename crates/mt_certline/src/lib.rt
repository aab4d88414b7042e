//! The lines of certificates: JSON objects, one a line, that tell of a job's inputs, tasks and outputs.
//!
//! - `line`: lines as values; `limits`: their limits.
//! - `reading`: a line is read. `tasks`, `begin`, `values`: its parts.
//! - `writing`: a line is written. `laws`: what is written is read again.
#![tactic(auto)]

mod begin;
mod laws;
mod limits;
mod line;
mod reading;
mod tasks;
mod values;
mod writing;

pub use laws::{lines_read_again, map_job_is_worked};
pub use limits::LONGEST_ROOT;
pub use line::{Line, Listed, Sum};
pub use reading::read_line;
pub use writing::line_text;

//! What the commit of a task makes of the rows of an account: its records are taken one after another over the tree, and where one is
//! refused the tree is as it was.
//!
//! - `records`: the records of a commit. `committing`: the task that is committed. `undo`: changes that can be taken back.
//! - `places`: where a task may make an object. `names`: the paths in the area of jobs.
//! - `laws`: that what it asks holds of each commit that is allowed.
#![tactic(auto)]

mod committing;
pub mod laws;
mod names;
mod places;
mod records;
mod undo;

pub use committing::Committing;
pub use names::{in_job_folder, job_folder, job_stor};
pub use records::resolve;

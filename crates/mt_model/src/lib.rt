//! What an account is: its state, the commands that change it, and what the phases of a job mean.
//!
//! The definitions are in `specs/`, to be read in this order: `Rows`, `Listing`, `Names`, `Feed`, `Tasks`, `State`,
//! `Resolve`, `JobSteps`, `UploadSteps`, `CommandStep`; then `Sound`, `Lawful`, `Meaning`, `Honest` and `Finished`.
//! No index, no cache and no offset occurs in them, and a body may be anything.
//!
//! - `laws`: the definitions say the same over references as over bytes, and commands keep a state lawful.
//! - `worked`: worked examples, computed from the definitions.
#![tactic(auto)]

pub mod laws;
pub mod worked;

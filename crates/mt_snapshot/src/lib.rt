//! Snapshots of an account: its state as records, from which a log is written anew, and the records read again. Each record has one
//! spelling, which is no piece of a body and no command.
//!
//! - `record`: what a record says. `moves`: where bodies stand in the log that is written.
//! - `reading`, `values`, `jobs`: a record from bytes. `writing`, `lists`: records, appended to a vector from what they list.
//! - `limits`: the limits of records. `laws`: laws of records and of what is listed.
//! - `specs/Records`: the grammar, within the limits of values; `Readers`: reading by it; `Listing`: how a state is listed.
#![tactic(auto)]

mod jobs;
pub mod laws;
mod limits;
mod lists;
mod moves;
mod reading;
mod record;
mod values;
mod writing;

pub use limits::{LONGEST_ROOT, MOST_PARTS};
pub use moves::{Moves, Unmoved};
pub use reading::read_record;
pub use record::{JobRecord, SnapshotRecord, UploadRecord};
pub use writing::{
    put_begin, put_end, put_entry, put_input, put_job, put_missing, put_part, put_row, put_upload,
};

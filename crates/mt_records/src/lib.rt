//! Records of helpers, and how a task is judged by them: bodies stay where they are, and are named by ranges.
//!
//! - `head`, `record`, `range`, `limits`, `error`: the types.
//! - `writing`, `reading`: heads and ends, as bytes. `decoding`: a whole record.
//! - `window`: the record that the front and the end of a file show.
//! - `told`: what shows before a file is looked at. `asking`: records with their paths. `judging`: the fate of a task.
//! - `laws`: what is written is read again; the fate over ranges is the fate over bytes.
#![tactic(auto)]

mod asking;
mod decoding;
mod error;
mod head;
mod judging;
mod laws;
mod limits;
mod range;
mod reading;
mod record;
mod told;
mod window;
mod writing;

pub use decoding::decode;
pub use error::RecordError;
pub use head::RecordHead;
pub use judging::Judging;
pub use laws::{
    fates_are_honest, fates_are_well_made, fates_of_windows, ranges_are_within,
    records_are_read_again, windows_in_turn,
};
pub use limits::{END_LEN, LONGEST_HEAD, LONGEST_TEXT, constants_are};
pub use mt_types::LARGEST_OUTPUT;
pub use range::Range;
pub use record::RawRecord;
pub use writing::{encode_head, end_of};

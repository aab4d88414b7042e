//! The draft of a new log: it is written, record by record, into the file that the disk's log isn't in, and takes that log's place at
//! the end. Until then a crash at any moment leaves the log as it was.
//!
//! - `draft`: the value that callers hold, and its room.
//! - `head`: the byte of Head, which names the log's file. `record`: a record's bytes. `part`: bytes of a file.
//!   `pour`: what is held goes to the disk.
//! - `opening`: Head is made firm, and the other file is emptied. `add`: a record more. `copy`: records of the log, as bytes.
//! - `finish`: the draft takes the log's place. `abandon`: it is given up, and the room that it took is free again.
//! - `specs/Drafts`: what stands in the files meanwhile, and at the end. `specs/Steps`: the same of each step.
#![tactic(auto)]

mod abandon;
mod add;
mod copy;
mod draft;
mod finish;
mod head;
mod opening;
mod part;
mod pour;
mod record;

pub use draft::{Draft, DraftEnd};
pub use opening::begin;

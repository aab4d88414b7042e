//! A disk of three files, what a crash may leave of it, and a disk in memory.
//!
//! - `disk`: the trait that the log is written against, with its meaning as ghost members.
//! - `memory`: the disk in memory, over `contents` (what its files hold) and `record` (its calls).
//! - `crash`: what a crash leaves of a disk in memory.
//! - `specs/Files`: the contents of three files.
//! - `specs/CrashModel`: what a crash between two syncs may leave, now and since each earlier moment.
//! - `specs/Calls`: what calls leave of a disk in memory.
#![tactic(auto)]

mod bytes;
mod contents;
mod crash;
mod disk;
mod memory;
mod record;

pub use crash::{CrashError, Pick};
pub use disk::{Disk, DiskFault, FileNo};
pub use memory::{MemDisk, Room};

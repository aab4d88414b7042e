//! A disk that reads ahead in one file of a disk that is lent, so that many small reads are few calls of it.
//!
//! - `read_ahead`: the disk, over a piece of memory that is lent too.
#![tactic(auto)]

mod read_ahead;

pub use read_ahead::ReadAhead;

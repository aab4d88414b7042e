//! The lines of a certificate as values.
use mt_base::{Duplicate, Sequence};
use mt_path::Path;
use mt_types::{Item, Items, Phases};
use std::alloc::{AllocError, Global};

/// What a body is known by.
#[derive(Clone, Copy, Debug, PartialEq, Eq)]
pub struct Sum {
    /// The MD5 digest of its bytes (RFC 1321).
    pub md5: [u8; 16],
    /// The number of its bytes.
    pub size: u64,
}

impl Duplicate for Sum {
    fn copy(&self, _alloc: Global) -> Result<Sum, AllocError> {
        Ok(*self)
    }
}

/// A committed task.
#[derive(Debug, PartialEq, Eq, Drop)]
pub struct Listed {
    /// The phase, counted from 0.
    pub phase: u64,
    /// The place in the feed of a map phase, or the reducer's number.
    pub place: u64,
    /// The number of commands before its commit.
    pub position: u64,
    /// Its outputs, in their order; none where it failed.
    pub outputs: Option<Items<Sum>>,
    /// The places in the feed of its phase that it read.
    pub reads: Sequence<u64>,
}

/// A line of a certificate. They stand in the order of these forms.
#[derive(Debug, PartialEq, Eq, Drop)]
pub enum Line {
    /// The first.
    Begin {
        /// The job's number, below 2^62.
        number: u64,
        /// Its phases, 1 to 16.
        phases: Phases,
    },
    /// An input.
    Input(Item<Sum>),
    /// A committed task; those of a phase stand together, in the order of their commits.
    Task(Listed),
    /// The name of an output of the job.
    Output(Path),
    /// The last.
    End,
}

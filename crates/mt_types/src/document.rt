//! What a job is asked to do, and on what.
use mt_base::{Duplicate, Sequence, Text};
use mt_path::Path;
use std::alloc::{AllocError, Global};

/// How a phase cuts its feed into tasks.
#[derive(Clone, Copy, Debug, PartialEq, Eq)]
pub enum PhaseKind {
    /// One task for each item of the feed.
    Map,
    /// So many reducers, each over its share of the feed.
    Reduce {
        /// The number of reducers, 1 to 1,024.
        count: u32,
    },
}

/// Paths.
pub type Paths = Sequence<Path>;

/// A phase of a job.
#[derive(Debug, PartialEq, Eq, Drop)]
pub struct Phase {
    /// How it cuts its feed into tasks.
    pub kind: PhaseKind,
    /// The command line, for a shell: 1 to 65,536 bytes without NUL.
    pub exec: Text,
    /// A command line that is run before, in the same bounds.
    pub init: Option<Text>,
    /// The objects that each task finds in its folder, at most 64.
    pub assets: Paths,
}

/// Phases, in their order.
pub type Phases = Sequence<Phase>;

/// What a job is asked to do.
#[derive(Debug, PartialEq, Eq, Drop)]
pub struct JobDocument {
    /// A name for its owner; it may be empty.
    pub name: Text,
    /// Its phases, 1 to 16.
    pub phases: Phases,
}

/// A line that was posted to a job's inputs.
#[derive(Debug, PartialEq, Eq, Drop)]
pub enum InputLine {
    /// A path of this account.
    Named(Path),
    /// Any other text.
    Other(Text),
}

/// Lines, in the order in which they were posted.
pub type Lines = Sequence<InputLine>;

impl Duplicate for PhaseKind {
    fn copy(&self, _alloc: Global) -> Result<PhaseKind, AllocError> {
        Ok(*self)
    }
}

impl Duplicate for Phase {
    fn copy(&self, alloc: Global) -> Result<Phase, AllocError> {
        Ok(Phase {
            kind: self.kind,
            exec: self.exec.copy(alloc)?,
            init: self.init.copy(alloc)?,
            assets: self.assets.copy(alloc)?,
        })
    }
}

impl Duplicate for JobDocument {
    fn copy(&self, alloc: Global) -> Result<JobDocument, AllocError> {
        Ok(JobDocument {
            name: self.name.copy(alloc)?,
            phases: self.phases.copy(alloc)?,
        })
    }
}

impl Duplicate for InputLine {
    fn copy(&self, alloc: Global) -> Result<InputLine, AllocError> {
        match self {
            InputLine::Named(path) => Ok(InputLine::Named(path.copy(alloc)?)),
            InputLine::Other(text) => Ok(InputLine::Other(text.copy(alloc)?)),
        }
    }
}

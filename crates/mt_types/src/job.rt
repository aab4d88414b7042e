//! A job: its inputs, and its trace of committed tasks.
use crate::document::{JobDocument, Lines};
use crate::task::TaskFailure;
use mt_base::{Bytes, Duplicate, Sequence, Text};
use mt_path::Path;
use std::alloc::{AllocError, Global};

/// What a phase reads: an input, or an output of the phase before.
#[derive(Debug, PartialEq, Eq, Drop)]
pub struct Item<B> {
    /// The object's name.
    pub name: Path,
    /// What the names of outputs without a place begin with: a component of at most 200 bytes.
    pub root: Text,
    /// The bytes that the object held at that moment.
    pub body: B,
    /// The reducer that is to read it, where it is said.
    pub reducer: Option<u32>,
}

/// Items, in their order.
pub type Items<B> = Sequence<Item<B>>;

/// What a committed task came to.
#[derive(Debug, PartialEq, Eq, Drop)]
pub enum Outcome<B> {
    /// Its outputs, in the order of its records.
    Good(Items<B>),
    /// It failed.
    Bad {
        /// Why.
        failure: TaskFailure,
        /// Its exit status; 0 where the commit refused a record.
        status: u32,
        /// A front of standard error, at most 1,024 bytes.
        stderr: Bytes,
    },
}

/// A committed task.
#[derive(Debug, PartialEq, Eq, Drop)]
pub struct TraceEntry<B> {
    /// The phase, counted from 0.
    pub phase: u32,
    /// The place in the feed of a map phase, or the reducer's number.
    pub place: u64,
    /// The number of commands before the commit.
    pub position: u64,
    /// What it came to.
    pub outcome: Outcome<B>,
}

/// Committed tasks, in the order of their commits.
pub type Trace<B> = Sequence<TraceEntry<B>>;

/// The bodies of the assets of each phase.
pub type AssetBodies<B> = Sequence<Sequence<B>>;

/// A job.
#[derive(Debug, PartialEq, Eq, Drop)]
pub struct Job<B> {
    /// Its number, a multiple of 4,096 below 2^62.
    pub number: u64,
    /// What it is asked to do.
    pub document: JobDocument,
    /// For each phase, the bodies that its assets held when the job was made.
    pub assets: AssetBodies<B>,
    /// The posted lines that named objects.
    pub inputs: Items<B>,
    /// The posted lines that named none.
    pub missing: Lines,
    /// Whether its input has ended.
    pub ended: bool,
    /// Whether it was cancelled.
    pub cancelled: bool,
    /// When it was made, in seconds since 1970.
    pub created: u64,
    /// When it was done, in seconds since 1970.
    pub done: Option<u64>,
    /// Its committed tasks.
    pub trace: Trace<B>,
}

/// Jobs, in the order in which they were made.
pub type JobList<B> = Sequence<Job<B>>;

/// A task of a job.
#[derive(Clone, Copy, Debug, PartialEq, Eq)]
pub struct Task {
    /// The job's number.
    pub job: u64,
    /// The phase, counted from 0.
    pub phase: u32,
    /// The place in the feed of a map phase, or the reducer's number.
    pub place: u64,
}

/// Tasks, in their order.
pub type Tasks = Sequence<Task>;

impl<B: Duplicate> Duplicate for Item<B> {
    fn copy(&self, alloc: Global) -> Result<Item<B>, AllocError> {
        Ok(Item {
            name: self.name.copy(alloc)?,
            root: self.root.copy(alloc)?,
            body: self.body.copy(alloc)?,
            reducer: self.reducer,
        })
    }
}

impl<B: Duplicate> Duplicate for Outcome<B> {
    fn copy(&self, alloc: Global) -> Result<Outcome<B>, AllocError> {
        match self {
            Outcome::Good(items) => Ok(Outcome::Good(items.copy(alloc)?)),
            Outcome::Bad {
                failure,
                status,
                stderr,
            } => Ok(Outcome::Bad {
                failure: *failure,
                status: *status,
                stderr: stderr.copy(alloc)?,
            }),
        }
    }
}

impl<B: Duplicate> Duplicate for TraceEntry<B> {
    fn copy(&self, alloc: Global) -> Result<TraceEntry<B>, AllocError> {
        Ok(TraceEntry {
            phase: self.phase,
            place: self.place,
            position: self.position,
            outcome: self.outcome.copy(alloc)?,
        })
    }
}

impl<B: Duplicate> Duplicate for Job<B> {
    fn copy(&self, alloc: Global) -> Result<Job<B>, AllocError> {
        Ok(Job {
            number: self.number,
            document: self.document.copy(alloc)?,
            assets: self.assets.copy(alloc)?,
            inputs: self.inputs.copy(alloc)?,
            missing: self.missing.copy(alloc)?,
            ended: self.ended,
            cancelled: self.cancelled,
            created: self.created,
            done: self.done,
            trace: self.trace.copy(alloc)?,
        })
    }
}

impl Duplicate for Task {
    fn copy(&self, _alloc: Global) -> Result<Task, AllocError> {
        Ok(*self)
    }
}

//! What a task is run with, what it leaves, and how that is judged.
use mt_base::{Bytes, Duplicate, Sequence, Text};
use mt_path::Path;
use std::alloc::{AllocError, Global};

/// An object that a task finds in its folder.
#[derive(Debug, PartialEq, Eq, Drop)]
pub struct Asset {
    /// The object's name, with the login.
    pub name: Text,
    /// The object's bytes.
    pub bytes: Bytes,
}

/// Assets, in the order in which the phase names them.
pub type Assets = Sequence<Asset>;

/// What a task is run with.
#[derive(Debug, PartialEq, Eq, Drop)]
pub struct Run {
    /// The job's number.
    pub job: u64,
    /// The phase, counted from 0.
    pub phase: u32,
    /// The command line, for a shell.
    pub exec: Text,
    /// A command line that is run before.
    pub init: Option<Text>,
    /// The name that outputs without a place begin with, with the login.
    pub base: Text,
    /// The input object's name, of a map task.
    pub object: Option<Text>,
    /// The reducer's number, of a reduce task.
    pub reducer: Option<u32>,
    /// What it finds in its folder.
    pub assets: Assets,
}

/// A record file that a task left.
#[derive(Debug, PartialEq, Eq, Drop)]
pub struct RecordFile {
    /// The number that is its name.
    pub number: u32,
    /// Its bytes.
    pub bytes: Bytes,
}

/// Record files, in the order in which they were found.
pub type Files = Sequence<RecordFile>;

/// What a task wrote.
#[derive(Debug, PartialEq, Eq, Drop)]
pub enum Made {
    /// All of it.
    Whole {
        /// Standard output.
        out: Bytes,
        /// The record files, in order of number.
        files: Files,
    },
    /// All of it together is above the limit, and was not read.
    TooLarge {
        /// The sum, in bytes.
        total: u64,
    },
}

/// What a child ended in.
#[derive(Debug, PartialEq, Eq, Drop)]
pub struct Raw {
    /// The exit status; 255 of a child that a signal ended.
    pub status: u32,
    /// A front of standard error, at most 1,024 bytes.
    pub stderr: Bytes,
    /// What it wrote.
    pub made: Made,
}

/// What a task asks for by a helper: an output, an object, or an object that is there.
#[derive(Debug, PartialEq, Eq, Drop)]
pub enum TaskRecord<B> {
    /// A new object that is an output too.
    Emit {
        /// Where it is to stand; a fresh name below the job where it is not said.
        place: Option<Path>,
        /// The reducer that is to read it, where it is said.
        reducer: Option<u32>,
        /// Its bytes.
        body: B,
    },
    /// A new object that is no output.
    Keep {
        /// Where it is to stand.
        place: Path,
        /// Its bytes.
        body: B,
    },
    /// An output that is an object that is there.
    Ref {
        /// The object's name.
        name: Path,
    },
}

/// Records, in order of number.
pub type TaskRecords<B> = Sequence<TaskRecord<B>>;

/// Why a task failed.
#[derive(Clone, Copy, Debug, PartialEq, Eq)]
pub enum TaskFailure {
    /// Its command ended with a status other than 0.
    UserTaskError,
    /// Its output is over the limit.
    TaskOutputTooLarge,
    /// A record file is not whole, or not in its place.
    TaskRecordError,
    /// An output's place cannot hold an object.
    TaskPlaceRefused,
    /// A named object is not there.
    TaskObjectMissing,
}

/// How a raw outcome is judged, before anything is committed.
#[derive(Debug, PartialEq, Eq, Drop)]
pub enum Fate<B> {
    /// Its records are to be resolved.
    Good(TaskRecords<B>),
    /// It failed.
    Bad {
        /// Why.
        failure: TaskFailure,
        /// Its exit status.
        status: u32,
        /// A front of standard error, at most 1,024 bytes.
        stderr: Bytes,
    },
}

impl Duplicate for Asset {
    fn copy(&self, alloc: Global) -> Result<Asset, AllocError> {
        Ok(Asset {
            name: self.name.copy(alloc)?,
            bytes: self.bytes.copy(alloc)?,
        })
    }
}

impl Duplicate for Run {
    fn copy(&self, alloc: Global) -> Result<Run, AllocError> {
        Ok(Run {
            job: self.job,
            phase: self.phase,
            exec: self.exec.copy(alloc)?,
            init: self.init.copy(alloc)?,
            base: self.base.copy(alloc)?,
            object: self.object.copy(alloc)?,
            reducer: self.reducer,
            assets: self.assets.copy(alloc)?,
        })
    }
}

impl Duplicate for RecordFile {
    fn copy(&self, alloc: Global) -> Result<RecordFile, AllocError> {
        Ok(RecordFile {
            number: self.number,
            bytes: self.bytes.copy(alloc)?,
        })
    }
}

impl Duplicate for Made {
    fn copy(&self, alloc: Global) -> Result<Made, AllocError> {
        match self {
            Made::Whole { out, files } => Ok(Made::Whole {
                out: out.copy(alloc)?,
                files: files.copy(alloc)?,
            }),
            Made::TooLarge { total } => Ok(Made::TooLarge { total: *total }),
        }
    }
}

impl Duplicate for Raw {
    fn copy(&self, alloc: Global) -> Result<Raw, AllocError> {
        Ok(Raw {
            status: self.status,
            stderr: self.stderr.copy(alloc)?,
            made: self.made.copy(alloc)?,
        })
    }
}

impl<B: Duplicate> Duplicate for TaskRecord<B> {
    fn copy(&self, alloc: Global) -> Result<TaskRecord<B>, AllocError> {
        match self {
            TaskRecord::Emit {
                place,
                reducer,
                body,
            } => Ok(TaskRecord::Emit {
                place: place.copy(alloc)?,
                reducer: *reducer,
                body: body.copy(alloc)?,
            }),
            TaskRecord::Keep { place, body } => Ok(TaskRecord::Keep {
                place: place.copy(alloc)?,
                body: body.copy(alloc)?,
            }),
            TaskRecord::Ref { name } => Ok(TaskRecord::Ref {
                name: name.copy(alloc)?,
            }),
        }
    }
}

impl Duplicate for TaskFailure {
    fn copy(&self, _alloc: Global) -> Result<TaskFailure, AllocError> {
        Ok(*self)
    }
}

impl<B: Duplicate> Duplicate for Fate<B> {
    fn copy(&self, alloc: Global) -> Result<Fate<B>, AllocError> {
        match self {
            Fate::Good(records) => Ok(Fate::Good(records.copy(alloc)?)),
            Fate::Bad {
                failure,
                status,
                stderr,
            } => Ok(Fate::Bad {
                failure: *failure,
                status: *status,
                stderr: stderr.copy(alloc)?,
            }),
        }
    }
}

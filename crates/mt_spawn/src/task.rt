//! Orders of tasks, and what is told of their children. An order holds no bytes of objects, so that none is ever whole in memory.
use mt_base::{Bytes, Duplicate, Sequence, Text};
use std::alloc::{AllocError, Global};

/// A live child of a spawner.
#[derive(Clone, Copy, Debug, PartialEq, Eq)]
pub struct Ticket {
    /// What tells it from the other live children.
    pub number: u64,
}

/// An object that a task finds in its folder.
#[derive(Debug, PartialEq, Eq, Drop)]
pub struct AssetSize {
    /// The object's name, with the login.
    pub name: Text,
    /// How many bytes it has.
    pub len: u64,
}

impl Duplicate for AssetSize {
    fn copy(&self, alloc: Global) -> Result<AssetSize, AllocError> {
        Ok(AssetSize {
            name: self.name.copy(alloc)?,
            len: self.len,
        })
    }
}

/// What a task is run with, but for the bytes that it reads.
#[derive(Debug, PartialEq, Eq, Drop)]
pub struct Order {
    /// The job's number.
    pub job: u64,
    /// The phase, counted from 0.
    pub phase: u32,
    /// The command line, for a shell.
    pub exec: Text,
    /// A command line that is run before.
    pub init: Option<Text>,
    /// The name that outputs without a place begin with, with the login.
    pub base: Text,
    /// The input object's name, of a map task.
    pub object: Option<Text>,
    /// The reducer's number, of a reduce task.
    pub reducer: Option<u32>,
    /// How many bytes it reads.
    pub input: u64,
    /// What it finds in its folder.
    pub assets: Sequence<AssetSize>,
}

impl Duplicate for Order {
    fn copy(&self, alloc: Global) -> Result<Order, AllocError> {
        Ok(Order {
            job: self.job,
            phase: self.phase,
            exec: self.exec.copy(alloc)?,
            init: self.init.copy(alloc)?,
            base: self.base.copy(alloc)?,
            object: self.object.copy(alloc)?,
            reducer: self.reducer,
            input: self.input,
            assets: self.assets.copy(alloc)?,
        })
    }
}

/// A record file that a child left.
#[derive(Clone, Copy, Debug, PartialEq, Eq)]
pub struct FileSize {
    /// The number that is its name.
    pub number: u32,
    /// How many bytes it has.
    pub len: u64,
}

impl Duplicate for FileSize {
    fn copy(&self, _alloc: Global) -> Result<FileSize, AllocError> {
        Ok(*self)
    }
}

/// How much a child wrote.
#[derive(Debug, PartialEq, Eq, Drop)]
pub enum Sizes {
    /// All of it is there.
    Whole {
        /// The bytes of standard output.
        out: u64,
        /// The record files, in order of number.
        files: Sequence<FileSize>,
    },
    /// All of it together is above the limit, and nothing of it can be read.
    TooLarge {
        /// The sum, in bytes.
        total: u64,
    },
}

impl Duplicate for Sizes {
    fn copy(&self, alloc: Global) -> Result<Sizes, AllocError> {
        match self {
            Sizes::Whole { out, files } => Ok(Sizes::Whole {
                out: *out,
                files: files.copy(alloc)?,
            }),
            Sizes::TooLarge { total } => Ok(Sizes::TooLarge { total: *total }),
        }
    }
}

/// What is told of an ended child before what it wrote is read.
#[derive(Debug, PartialEq, Eq, Drop)]
pub struct Left {
    /// The exit status; 255 of a child that a signal ended.
    pub status: u32,
    /// A front of standard error, at most 1,024 bytes.
    pub stderr: Bytes,
    /// How much it wrote.
    pub made: Sizes,
}

impl Duplicate for Left {
    fn copy(&self, alloc: Global) -> Result<Left, AllocError> {
        Ok(Left {
            status: self.status,
            stderr: self.stderr.copy(alloc)?,
            made: self.made.copy(alloc)?,
        })
    }
}

/// A part of what a child wrote.
#[derive(Clone, Copy, Debug, PartialEq, Eq)]
pub enum Part {
    /// Standard output.
    Out,
    /// The record file at this place of the list, counted from 0.
    File {
        /// The place, which is not the file's number.
        index: u64,
    },
}

/// What a start did.
#[derive(Clone, Copy, Debug, PartialEq, Eq)]
pub enum Begun {
    /// A child runs.
    Began(Ticket),
    /// The spawner failed, and counted it.
    Failed,
    /// The source of its bytes failed, and counted it.
    InputFailed,
    /// Out of memory.
    Memory,
}

/// What a wait found.
#[derive(Debug, PartialEq, Eq, Drop)]
pub enum Waited {
    /// This child has ended, and what it left is held.
    Ended {
        /// The child, which lives no more.
        ticket: Ticket,
        /// What is told of it.
        left: Left,
    },
    /// No child has ended.
    NotYet,
    /// The spawner failed with this child, counted it, and the child is gone.
    Failed(Ticket),
    /// Out of memory with this child, which is gone.
    Lost(Ticket),
    /// Out of memory. No child is gone.
    Memory,
}

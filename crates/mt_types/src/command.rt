//! The commands that the log holds.
ghost use Rattle.std.specs.Prelude.{◌≡◌, IfOk};
ghost use Rattle.mt_types.specs.Kinds.{kind_of, OnRows, OnJobs, OnEnds, OnUploads};

use crate::document::{JobDocument, Lines};
use crate::object::Fields;
use crate::task::Fate;
use crate::upload::PartNumbers;
use mt_base::{Duplicate, Text};
use mt_path::Path;
use std::alloc::{AllocError, Global};

/// The five texts that a job leaves in its folder when it ends, as bodies.
#[derive(Debug, PartialEq, Eq, Drop)]
pub struct Archive<B> {
    /// What failed, as live/err tells it.
    pub err: B,
    /// The names of what failed, as live/fail tells them.
    pub fail: B,
    /// The names of the inputs, as live/in tells them.
    pub input: B,
    /// The job, as live/status tells it.
    pub status: B,
    /// The names of the outputs, as live/out tells them.
    pub out: B,
}

/// A change of the account. Each holds its moment, in seconds since 1970.
#[derive(Debug, PartialEq, Eq, Drop)]
pub enum Command<B> {
    /// Puts an object.
    Put {
        path: Path,
        content_type: Text,
        body: B,
        durability: Option<u8>,
        metadata: Fields,
        moment: u64,
    },
    /// Makes a directory.
    MakeDirectory {
        path: Path,
        moment: u64,
    },
    /// Puts an object that is what another is at that moment.
    Link {
        path: Path,
        source: Path,
        moment: u64,
    },
    /// Removes an object or an empty directory.
    Delete {
        path: Path,
        moment: u64,
    },
    /// Makes a job.
    NewJob {
        document: JobDocument,
        moment: u64,
    },
    /// Posts lines to a job's inputs.
    AddInputs {
        job: u64,
        lines: Lines,
        moment: u64,
    },
    /// Ends a job's input.
    EndInput {
        job: u64,
        moment: u64,
    },
    /// Commits a task.
    Commit {
        job: u64,
        phase: u32,
        place: u64,
        fate: Fate<B>,
        moment: u64,
    },
    /// Ends a job whose tasks are all committed, without an archive.
    Finish {
        job: u64,
        moment: u64,
    },
    /// Ends a job at once, without an archive.
    Cancel {
        job: u64,
        moment: u64,
    },
    /// Ends a job, at once where it is cancelled, with its archive.
    Close {
        job: u64,
        cancelled: bool,
        archive: Archive<B>,
        moment: u64,
    },
    /// Begins an upload.
    NewUpload {
        path: Path,
        content_type: Text,
        moment: u64,
    },
    /// Puts a part of an upload.
    PutPart {
        upload: u64,
        index: u16,
        body: B,
        moment: u64,
    },
    /// Puts the object of an upload, the join of the listed parts.
    CommitUpload {
        upload: u64,
        parts: PartNumbers,
        body: B,
        moment: u64,
    },
    /// Gives an upload up.
    AbortUpload {
        upload: u64,
        moment: u64,
    },
}

impl<B: Duplicate> Duplicate for Archive<B> {
    fn copy(&self, alloc: Global) -> Result<Archive<B>, AllocError> {
        Ok(Archive {
            err: self.err.copy(alloc)?,
            fail: self.fail.copy(alloc)?,
            input: self.input.copy(alloc)?,
            status: self.status.copy(alloc)?,
            out: self.out.copy(alloc)?,
        })
    }
}

impl<B: Duplicate> Duplicate for Command<B> {
    fn copy(&self, alloc: Global) -> Result<Command<B>, AllocError> {
        match self {
            Command::Put { .. }
            | Command::MakeDirectory { .. }
            | Command::Link { .. }
            | Command::Delete { .. } => copy_of_rows(alloc, self),
            Command::NewJob { .. }
            | Command::AddInputs { .. }
            | Command::EndInput { .. }
            | Command::Commit { .. } => copy_of_jobs(alloc, self),
            Command::Finish { .. } | Command::Cancel { .. } | Command::Close { .. } => {
                copy_of_ends(alloc, self)
            }
            Command::NewUpload { .. }
            | Command::PutPart { .. }
            | Command::CommitUpload { .. }
            | Command::AbortUpload { .. } => copy_of_uploads(alloc, self),
        }
    }
}

// A copy of a command on what stands at paths.
fn copy_of_rows<B: Duplicate>(alloc: Global, command: &Command<B>) -> Result<Command<B>, AllocError>
    requires { kind_of command.now ≡ OnRows }
    ensures { IfOk result (λ c. c ≡ command.now) }
{
    match command {
        Command::Put {
            path,
            content_type,
            body,
            durability,
            metadata,
            moment,
        } => Ok(Command::Put {
            path: path.copy(alloc)?,
            content_type: content_type.copy(alloc)?,
            body: body.copy(alloc)?,
            durability: durability.copy(alloc)?,
            metadata: metadata.copy(alloc)?,
            moment: *moment,
        }),
        Command::MakeDirectory { path, moment } => Ok(Command::MakeDirectory {
            path: path.copy(alloc)?,
            moment: *moment,
        }),
        Command::Link {
            path,
            source,
            moment,
        } => Ok(Command::Link {
            path: path.copy(alloc)?,
            source: source.copy(alloc)?,
            moment: *moment,
        }),
        Command::Delete { path, moment } => Ok(Command::Delete {
            path: path.copy(alloc)?,
            moment: *moment,
        }),
        _ => unreachable!(),
    }
}

// A copy of a command that makes a job, or adds to it.
fn copy_of_jobs<B: Duplicate>(alloc: Global, command: &Command<B>) -> Result<Command<B>, AllocError>
    requires { kind_of command.now ≡ OnJobs }
    ensures { IfOk result (λ c. c ≡ command.now) }
{
    match command {
        Command::NewJob { document, moment } => Ok(Command::NewJob {
            document: document.copy(alloc)?,
            moment: *moment,
        }),
        Command::AddInputs { job, lines, moment } => Ok(Command::AddInputs {
            job: *job,
            lines: lines.copy(alloc)?,
            moment: *moment,
        }),
        Command::EndInput { job, moment } => Ok(Command::EndInput {
            job: *job,
            moment: *moment,
        }),
        Command::Commit {
            job,
            phase,
            place,
            fate,
            moment,
        } => Ok(Command::Commit {
            job: *job,
            phase: *phase,
            place: *place,
            fate: fate.copy(alloc)?,
            moment: *moment,
        }),
        _ => unreachable!(),
    }
}

// A copy of a command that ends a job.
fn copy_of_ends<B: Duplicate>(alloc: Global, command: &Command<B>) -> Result<Command<B>, AllocError>
    requires { kind_of command.now ≡ OnEnds }
    ensures { IfOk result (λ c. c ≡ command.now) }
{
    match command {
        Command::Finish { job, moment } => Ok(Command::Finish {
            job: *job,
            moment: *moment,
        }),
        Command::Cancel { job, moment } => Ok(Command::Cancel {
            job: *job,
            moment: *moment,
        }),
        Command::Close {
            job,
            cancelled,
            archive,
            moment,
        } => Ok(Command::Close {
            job: *job,
            cancelled: *cancelled,
            archive: archive.copy(alloc)?,
            moment: *moment,
        }),
        _ => unreachable!(),
    }
}

// A copy of a command on an upload.
fn copy_of_uploads<B: Duplicate>(
    alloc: Global,
    command: &Command<B>,
) -> Result<Command<B>, AllocError>
    requires { kind_of command.now ≡ OnUploads }
    ensures { IfOk result (λ c. c ≡ command.now) }
{
    match command {
        Command::NewUpload {
            path,
            content_type,
            moment,
        } => Ok(Command::NewUpload {
            path: path.copy(alloc)?,
            content_type: content_type.copy(alloc)?,
            moment: *moment,
        }),
        Command::PutPart {
            upload,
            index,
            body,
            moment,
        } => Ok(Command::PutPart {
            upload: *upload,
            index: *index,
            body: body.copy(alloc)?,
            moment: *moment,
        }),
        Command::CommitUpload {
            upload,
            parts,
            body,
            moment,
        } => Ok(Command::CommitUpload {
            upload: *upload,
            parts: parts.copy(alloc)?,
            body: body.copy(alloc)?,
            moment: *moment,
        }),
        Command::AbortUpload { upload, moment } => Ok(Command::AbortUpload {
            upload: *upload,
            moment: *moment,
        }),
        _ => unreachable!(),
    }
}

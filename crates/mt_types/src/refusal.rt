//! Why a command is refused.
use mt_base::Duplicate;
use std::alloc::{AllocError, Global};

/// Why the state of an account does not take a command. One cause each; which comes first where two
/// hold is said of each command.
#[derive(Clone, Copy, Debug, PartialEq, Eq)]
pub enum Refusal {
    /// The path is a root, or lies in an area that the command does not change.
    RootDirectory,
    /// The parent is not there.
    DirectoryDoesNotExist,
    /// The parent is an object.
    ParentNotDirectory,
    /// The path is a directory.
    DirectoryOperation,
    /// The path is there.
    EntityExists,
    /// The path, or the object that a job needs, is not there.
    NotFound,
    /// The directory has children.
    DirectoryNotEmpty,
    /// The source of a link is not there.
    LinkNotFound,
    /// The source of a link is a directory.
    LinkNotObject,
    /// The assets of one phase have too many bytes together.
    AssetsTooLarge,
    /// The job is not there.
    JobNotFound,
    /// The job is done, or its input has ended.
    JobState,
    /// The job would have too many inputs and missing lines.
    TooManyInputs,
    /// The task is none that may run.
    NotATask,
    /// The task is committed.
    AlreadyCommitted,
    /// The job has tasks that are not committed, or its input has not ended.
    NotComplete,
    /// The upload is not there.
    UploadNotFound,
    /// The upload is not open.
    UploadState,
    /// A listed part is not there.
    UploadPart,
    /// The parts have too many bytes together.
    UploadTooLarge,
}

impl Duplicate for Refusal {
    fn copy(&self, _alloc: Global) -> Result<Refusal, AllocError> {
        Ok(*self)
    }
}

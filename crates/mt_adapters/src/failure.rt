//! Why a call of a store's files failed.
use mt_disk::FileNo;
use std::io::ErrorKind;
use std::{fmt, io};

/// What was asked of a file.
#[derive(Clone, Copy, Debug, PartialEq, Eq)]
pub enum FileCall {
    /// To open it, or to make it.
    Open,
    /// To lock it.
    Lock,
    /// Its length.
    Length,
    /// To read it.
    Read,
    /// To write to it.
    Write,
    /// To cut it.
    Cut,
    /// To put what was written on the disk.
    Sync,
}

/// Why a call of a store's files failed.
#[derive(Drop)]
pub enum Failure {
    /// A call of the system failed, on one of the files, or else on the folder.
    Call {
        call: FileCall,
        file: Option<FileNo>,
        error: io::Error,
    },
    /// Another program has the store. Nothing was touched.
    InUse,
    /// What stands at the name of the file is a folder, a link or a device. Nothing was touched.
    NotAFile(FileNo),
    /// The file `head` is missing or empty, but this one holds more than a log that is being made, and would be overwritten.
    /// Nothing was touched.
    HeadLost(FileNo),
    /// A sync has failed before, and what the system then gives may never reach the disk.
    Lost,
}

impl Failure {
    /// A call of the system that failed on a file.
    pub(crate) fn of_file(call: FileCall, file: FileNo, error: io::Error) -> Failure {
        Failure::Call {
            call,
            file: Some(file),
            error,
        }
    }

    /// A call of the system that failed on the folder.
    pub(crate) fn of_folder(call: FileCall, error: io::Error) -> Failure {
        Failure::Call {
            call,
            file: None,
            error,
        }
    }
}

/// The name of a file in the folder of its store.
pub(crate) fn name_of(file: FileNo) -> &'static str {
    match file {
        FileNo::Head => "head",
        FileNo::One => "log1",
        FileNo::Two => "log2",
    }
}

impl FileCall {
    // As a verb.
    fn words(self) -> &'static str {
        match self {
            FileCall::Open => "open",
            FileCall::Lock => "lock",
            FileCall::Length => "get the length of",
            FileCall::Read => "read",
            FileCall::Write => "write",
            FileCall::Cut => "truncate",
            FileCall::Sync => "sync",
        }
    }
}

// Whether there is no room for what was to be written.
fn is_full(error: &io::Error) -> bool {
    matches!(
        error.kind(),
        ErrorKind::StorageFull | ErrorKind::QuotaExceeded
    )
}

// How to name a log that is there.
fn to_restore(file: FileNo) -> &'static str {
    match file {
        FileNo::Two => "To restore it: printf '\\002' > head; or move the log away",
        FileNo::One | FileNo::Head => {
            "To restore it: printf '\\001' > head ('\\002' if the store used log2); or move the logs away"
        }
    }
}

impl fmt::Display for Failure {
    fn fmt<W: fmt::Write>(&self, f: &mut fmt::Formatter<W>) -> fmt::Result {
        match self {
            Failure::Call { call, file, error } => {
                let name = match file {
                    Some(file) => name_of(*file),
                    None => "the directory",
                };
                write!(f, "cannot {} {}: {}", call.words(), name, error)?;
                if is_full(error) {
                    f.pad("; acknowledged data is safe: free space and restart")?;
                }
                Ok(())
            }
            Failure::InUse => f.pad("in use by another process"),
            Failure::NotAFile(file) => {
                write!(
                    f,
                    "'{}' is a directory, a link or a device, not a regular file",
                    name_of(*file)
                )
            }
            Failure::HeadLost(file) => {
                write!(
                    f,
                    "'head' is missing or empty, but '{}' holds a log; not overwriting it. ",
                    name_of(*file)
                )?;
                f.pad(to_restore(*file))
            }
            Failure::Lost => f.pad(
                "an earlier fsync failed, so what was written may not reach the disk: restart",
            ),
        }
    }
}

//! What is told of an ended task, by its folder.
ghost use Rattle.std.specs.Prelude.{◌≤◌, IfOk, length};

use crate::script::ENDED;
use crate::task_folder::TASK;
use mt_base::{Bytes, Sequence};
use mt_spawn::{FileSize, Left, Part, Sizes};
use mt_types::{LARGEST_OUTPUT, LONGEST_STDERR, MOST_RECORDS};
use std::alloc::{AllocError, Global};
use std::fs::{self, DirEntry, File};
use std::io::ErrorKind;
use std::os::unix::fs::FileExt;
use std::process::ExitStatus;
use std::rt::Files;
use std::{io, str};

/// The status of a child that a signal ended.
const BY_SIGNAL: u32 = 255;

/// The greatest status that a shell has.
const LAST_STATUS: u32 = 255;

/// The bytes of a file that tells a status, of which a longer one has none: three digits, a newline and one more.
const STATUS_LEN: usize = 5;

/// How many files of records are kept of a task: one more than it may make, so that a task that made too many is known by it.
const MOST_KEPT: usize = MOST_RECORDS + 1;

// The files of records that a task made: some of them, all where they are not too many, and how many bytes all have.
#[derive(Drop)]
struct Records {
    kept: Vec<FileSize>,
    total: u64,
}

impl Records {
    // There are none.
    fn new(alloc: Global) -> Records {
        Records {
            kept: Vec::new(alloc),
            total: 0,
        }
    }

    // With one more.
    fn add(&mut self, record: FileSize) -> Result<(), AllocError> {
        self.total = self.total.saturating_add(record.len);
        if self.kept.len() < MOST_KEPT {
            self.kept.push(record)?;
        }
        Ok(())
    }
}

/// Whether a folder stands at a path, and not a link to one.
pub(crate) fn is_folder<R: Files>(rt: &R, path: &str) -> io::Result<bool> {
    match fs::symlink_metadata(rt, path) {
        Ok(found) => Ok(found.is_dir()),
        Err(error) if error.kind() == ErrorKind::NotFound => Ok(false),
        Err(error) => Err(error),
    }
}

// How long the file of a path is. What is no file counts as missing, and so as empty.
fn len_of<R: Files>(rt: &R, path: &str) -> io::Result<u64> {
    match fs::symlink_metadata(rt, path) {
        Ok(found) if found.is_file() => Ok(found.len()),
        Ok(_) => Ok(0),
        Err(error) if error.kind() == ErrorKind::NotFound => Ok(0),
        Err(error) => Err(error),
    }
}

// Reads the front of a file until a piece is full, and tells how much there is.
fn read_front(file: &File, into: &mut [u8]) -> io::Result<usize>
    ensures { IfOk result (λ n. n ≤ length into.old) }
{
    let mut at = 0;
    'read: for _ in 0..LONGEST_STDERR {
        match file.read_at(&mut into[at..], at as u64)? {
            0 => break 'read,
            count => at += count,
        }
    }
    Ok(at)
}

// The front of standard error.
fn error_in<R: Files<File = File>>(rt: &R, alloc: Global, folder: &str) -> io::Result<Bytes> {
    let path = format!(in alloc; "{folder}/err")?;
    let mut front = [0; LONGEST_STDERR];
    if len_of(rt, path.as_str())? == 0 {
        return Ok(Bytes::from_slice(alloc, b"")?);
    }
    let count = read_front(&File::open(rt, path.as_str())?, &mut front)?;
    Ok(Bytes::from_slice(alloc, &front[..count])?)
}

// The number that a name is in decimal.
fn number_of(name: &str) -> Option<u32> {
    let is_decimal = name.as_bytes().iter().all(|byte| byte.is_ascii_digit());
    if !is_decimal || name.len() > 1 && name.starts_with('0') {
        return None;
    }
    name.parse::<u32>().ok()
}

// The record that an entry of the folder of records is.
fn record_of<R: Files>(entry: &DirEntry<(&R, Global), Global>) -> io::Result<Option<FileSize>> {
    let Some(number) = number_of(entry.file_name()) else {
        return Ok(None);
    };
    let found = entry.metadata()?;
    Ok(
        found.is_file().then_some(FileSize {
            number,
            len: found.len(),
        }),
    )
}

// The records in a folder, in any order.
fn records_in<R: Files>(rt: &R, alloc: Global, path: &str) -> io::Result<Records> {
    let mut records = Records::new(alloc);
    for entry in fs::read_dir(&(rt, alloc), path)? {
        match entry {
            Ok(entry) => {
                if let Some(record) = record_of(&entry)? {
                    records.add(record)?;
                }
            }
            // A name that is no text.
            Err(error) if error.kind() == ErrorKind::InvalidFilename => {}
            Err(error) => return Err(error),
        }
    }
    Ok(records)
}

// The records that a task made, in order of number. Where their folder is gone, or is none, there are none.
fn records_of<R: Files>(rt: &R, alloc: Global, folder: &str) -> io::Result<Records> {
    let path = format!(in alloc; "{folder}/spool")?;
    if !is_folder(rt, path.as_str())? {
        return Ok(Records::new(alloc));
    }
    let mut records = records_in(rt, alloc, path.as_str())?;
    records.kept.sort_by_key(|record| record.number)?;
    Ok(records)
}

// How much was written.
fn sizes_of(out: u64, records: Records) -> Sizes {
    let total = out.saturating_add(records.total);
    if total > LARGEST_OUTPUT {
        Sizes::TooLarge { total }
    } else {
        Sizes::Whole {
            out,
            files: Sequence::from_vec(records.kept),
        }
    }
}

// The status of a child.
fn status_of(status: ExitStatus) -> u32 {
    match status.code() {
        Some(code) => u32::try_from(code).unwrap_or(BY_SIGNAL),
        None => BY_SIGNAL,
    }
}

// The status that a text tells: a decimal and a newline.
fn status_in(text: &[u8]) -> Option<u32> {
    let number = str::from_utf8(text).ok()?.strip_suffix('\n')?;
    number_of(number).filter(|status| *status <= LAST_STATUS)
}

// The status in the file of a ticket's folder that is written last of all, if it is there and tells one.
fn told_status<R: Files<File = File>>(
    rt: &R,
    alloc: Global,
    folder: &str,
) -> io::Result<Option<u32>> {
    let path = format!(in alloc; "{folder}/{ENDED}")?;
    if len_of(rt, path.as_str())? == 0 {
        return Ok(None);
    }
    let mut front = [0; STATUS_LEN];
    let count = read_front(&File::open(rt, path.as_str())?, &mut front)?;
    Ok(status_in(&front[..count]))
}

/// What is told of the ended task of a ticket's folder: the status of its child, or, where that was a launcher, the one that the task
/// has told itself. Where it has told none, it was not run.
pub(crate) fn told_of<R: Files<File = File>>(
    rt: &R,
    alloc: Global,
    folder: &str,
    is_launched: bool,
    status: ExitStatus,
) -> io::Result<Option<Left>> {
    if !is_launched {
        return Ok(Some(left_in(rt, alloc, folder, status_of(status))?));
    }
    let Some(status) = told_status(rt, alloc, folder)? else {
        return Ok(None);
    };
    let task = format!(in alloc; "{folder}/{TASK}")?;
    Ok(Some(left_in(rt, alloc, task.as_str(), status)?))
}

// What is told of an ended task with this status. Where its folder is gone, or is none, it has left nothing.
fn left_in<R: Files<File = File>>(
    rt: &R,
    alloc: Global,
    folder: &str,
    status: u32,
) -> io::Result<Left> {
    if !is_folder(rt, folder)? {
        return Ok(Left {
            status,
            stderr: Bytes::from_slice(alloc, b"")?,
            made: sizes_of(0, Records::new(alloc)),
        });
    }
    let out = format!(in alloc; "{folder}/out")?;
    let out = len_of(rt, out.as_str())?;
    let records = records_of(rt, alloc, folder)?;
    Ok(Left {
        status,
        stderr: error_in(rt, alloc, folder)?,
        made: sizes_of(out, records),
    })
}

// The path of a part of what a task wrote. There is none of a file that is not there.
fn part_path(
    alloc: Global,
    folder: &str,
    left: &Left,
    part: Part,
) -> Result<Option<String>, AllocError> {
    let (Part::File { index }, Sizes::Whole { files, .. }) = (part, &left.made) else {
        return Ok(Some(format!(in alloc; "{folder}/out")?));
    };
    match files.as_slice().get(index as usize) {
        Some(file) => Ok(Some(format!(in alloc; "{folder}/spool/{}", file.number)?)),
        None => Ok(None),
    }
}

/// Opens a part of what a task wrote.
pub(crate) fn open_part<R: Files<File = File>>(
    rt: &R,
    alloc: Global,
    folder: &str,
    left: &Left,
    part: Part,
) -> io::Result<File> {
    let Some(path) = part_path(alloc, folder, left, part)? else {
        return Err(io::Error::from(ErrorKind::NotFound));
    };
    // To open a pipe could take forever.
    if !fs::symlink_metadata(rt, path.as_str())?.is_file() {
        return Err(io::Error::from(ErrorKind::InvalidInput));
    }
    File::open(rt, path.as_str())
}

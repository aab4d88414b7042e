//! What shows of a task before one of its files is looked at.
ghost use Rattle.std.specs.Prelude.{◌≡◌, ◌+◌, nat_lt};
ghost use Rattle.mt_records.specs.Fate.{are_numbered, size_failure, told_failure, total_len};

use mt_spawn::{FileSize, Left, Sizes};
use mt_types::{LARGEST_OUTPUT, MOST_RECORDS, TaskFailure};

// Whether standard output and files have more bytes than they may have together.
fn is_too_large(out: u64, files: &[FileSize]) -> bool
    ensures { result ≡ nat_lt LARGEST_OUTPUT (out + total_len files.now) }
{
    if out > LARGEST_OUTPUT {
        return true;
    }
    let mut room = LARGEST_OUTPUT - out;
    for file in files {
        if file.len > room {
            return true;
        }
        room -= file.len;
    }
    false
}

// Whether numbers rise, and each is below 4,095.
fn are_numbered(files: &[FileSize]) -> bool
    ensures { result ≡ are_numbered 0 files.now }
{
    let mut least = 0;
    for file in files {
        if file.number < least || file.number as usize >= MOST_RECORDS {
            return false;
        }
        least = file.number + 1;
    }
    true
}

// The failure that sizes and numbers show.
fn size_failure(made: &Sizes) -> Option<TaskFailure>
    ensures { result ≡ size_failure made.now }
{
    let Sizes::Whole { out, files } = made else {
        return Some(TaskFailure::TaskOutputTooLarge);
    };
    if is_too_large(*out, files.as_slice()) {
        Some(TaskFailure::TaskOutputTooLarge)
    } else if are_numbered(files.as_slice()) {
        None
    } else {
        Some(TaskFailure::TaskRecordError)
    }
}

/// The failure that shows by what is told of a task alone. It takes no memory.
#[tactic(auto, unfolding(crate::specs::Fate::told_failure))]
pub(crate) fn told_failure(left: &Left) -> Option<TaskFailure>
    ensures { result ≡ told_failure left.now }
{
    if left.status == 0 {
        size_failure(&left.made)
    } else {
        Some(TaskFailure::UserTaskError)
    }
}

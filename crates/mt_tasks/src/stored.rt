//! What becomes of what is to be stored in a run.
ghost use Rattle.std.specs.Prelude.{◌≡◌};
ghost use Rattle.mt_tasks.specs.Storing.{Keeps, range_end, stored_map};
ghost use Rattle.mt_types.specs.declared.task.Fate.{Fate};
ghost use Rattle.mt_types.specs.declared.task.TaskRecord.{TaskRecord};

use mt_body::Storing;
use mt_path::Path;
use mt_types::{Body, Fate, TaskRecord, TaskRecords};

/// What became of what was to be stored in a run.
#[derive(Debug, PartialEq, Eq, Drop)]
pub(crate) enum Stored<T> {
    /// All of it is in the run, and this names it.
    Whole(T),
    /// The spawner failed, and counted it. What came before stays in the run.
    Failed,
    /// The disk has failed, and the log is closed.
    Disk,
    /// Out of memory; or a part of what is held did not have the length that was told. What came before stays in the run.
    Memory,
}

/// How the storing of a range of so many bytes ends.
pub(crate) fn range_end(stored: Storing, len: u64) -> Stored<Body>
    ensures { result ≡ range_end stored len }
{
    match stored {
        Storing::Stored(body) if body.len == len => Stored::Whole(body),
        Storing::SourceFault => Stored::Failed,
        Storing::Disk => Stored::Disk,
        Storing::Stored(_) | Storing::Full | Storing::Memory => Stored::Memory,
    }
}

/// An output whose body is stored.
pub(crate) fn emitted(
    place: Option<Path>,
    reducer: Option<u32>,
    stored: Stored<Body>,
) -> Stored<TaskRecord<Body>>
    ensures { result ≡ stored_map (λ body. TaskRecord.Emit place reducer body) stored }
{
    match stored {
        Stored::Whole(body) => Stored::Whole(TaskRecord::Emit {
            place,
            reducer,
            body,
        }),
        Stored::Failed => Stored::Failed,
        Stored::Disk => Stored::Disk,
        Stored::Memory => Stored::Memory,
    }
}

/// An object that is no output, whose body is stored.
pub(crate) fn kept(place: Path, stored: Stored<Body>) -> Stored<TaskRecord<Body>>
    ensures { result ≡ stored_map (λ body. TaskRecord.Keep place body) stored }
{
    match stored {
        Stored::Whole(body) => Stored::Whole(TaskRecord::Keep { place, body }),
        Stored::Failed => Stored::Failed,
        Stored::Disk => Stored::Disk,
        Stored::Memory => Stored::Memory,
    }
}

/// A good fate whose records are stored.
pub(crate) fn good(stored: Stored<TaskRecords<Body>>) -> Stored<Fate<Body>>
    ensures { result ≡ stored_map (λ records. Fate.Good records) stored }
{
    match stored {
        Stored::Whole(records) => Stored::Whole(Fate::Good(records)),
        Stored::Failed => Stored::Failed,
        Stored::Disk => Stored::Disk,
        Stored::Memory => Stored::Memory,
    }
}

/// One record more that is stored; or how the storing of records ends.
pub(crate) fn keep(
    records: &mut Vec<TaskRecord<Body>>,
    stored: Stored<TaskRecord<Body>>,
) -> Option<Stored<TaskRecords<Body>>>
    ensures { Keeps stored records.old.items result records.new.items }
{
    match stored {
        Stored::Whole(record) => match records.push(record) {
            Ok(()) => None,
            Err(_) => Some(Stored::Memory),
        },
        Stored::Failed => Some(Stored::Failed),
        Stored::Disk => Some(Stored::Disk),
        Stored::Memory => Some(Stored::Memory),
    }
}

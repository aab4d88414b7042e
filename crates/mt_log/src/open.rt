//! Opening the log of a disk, or making its first one.
ghost use Rattle.std.specs.Prelude.{◌≡◌, ◌<◌, [], Bool, false, true, length};
ghost use Rattle.std.specs.Option.{ForSome};
ghost use Rattle.mt_disk.specs.CrashModel.{IsAtRest};
ghost use Rattle.mt_log.specs.LogImage.{Fit};
ghost use Rattle.mt_log.specs.Opening.{Opens};

use crate::choose::choose;
use crate::log::{Log, MAGIC_LEN};
use crate::new_log::{make, settle};
use crate::open_error::OpenError;
use crate::scan::scan;
use mt_disk::{Disk, FileNo};
use std::alloc::Global;

// Opens the log that Head names.
fn find<D: Disk>(alloc: Global, disk: &mut D, limit: u64, takes_old: bool) -> Result<Log, OpenError>
    requires rest { IsAtRest D.seen D.may_leave disk.old }
    requires head { ForSome (D.seen disk.old) (λ files. 0 < length files.head) }
    ensures { Opens D.seen D.may_leave D.moment D.left_since D.faults takes_old limit disk.old disk.new result }
{
    let file = choose(disk)?;
    let found = scan(alloc, disk, file, takes_old)?;
    Ok(Log {
        file,
        gate: found.gate,
        limit,
        closed: false,
        is_old: found.is_old,
    })
}

// Makes the first log, in a disk whose Head is empty, and opens it.
fn begin<D: Disk>(disk: &mut D, limit: u64) -> Result<Log, OpenError>
    requires rest { IsAtRest D.seen D.may_leave disk.old }
    requires empty { ForSome (D.seen disk.old) (λ files. files.head ≡ []) }
    requires fit { ForSome (D.seen disk.old) Fit }
    ensures { (any : Bool) → Opens D.seen D.may_leave D.moment D.left_since D.faults any limit disk.old disk.new result }
{
    make(disk)?;
    Ok(Log {
        file: FileNo::One,
        gate: MAGIC_LEN,
        limit,
        closed: false,
        is_old: false,
    })
}

// Opens the log, of this version or also of the old one.
fn open_by<D: Disk>(
    alloc: Global,
    disk: &mut D,
    limit: u64,
    takes_old: bool,
) -> Result<Log, OpenError>
    requires rest { IsAtRest D.seen D.may_leave disk.old }
    requires fit { ForSome (D.seen disk.old) Fit }
    ensures { Opens D.seen D.may_leave D.moment D.left_since D.faults takes_old limit disk.old disk.new result }
{
    if settle(disk)? == 0 {
        return begin(disk, limit);
    }
    find(alloc, disk, limit, takes_old)
}

impl Log {
    /// Opens the log of a disk, which may get `limit` bytes long. It makes one where Head is empty. A log is read
    /// from its front on, and the first fault is the answer; it is read in pieces of a fixed size.
    pub fn open<D: Disk>(alloc: Global, disk: &mut D, limit: u64) -> Result<Log, OpenError>
        requires rest { IsAtRest D.seen D.may_leave disk.old }
        requires fit { ForSome (D.seen disk.old) Fit }
        ensures { Opens D.seen D.may_leave D.moment D.left_since D.faults false limit disk.old disk.new result }
    {
        open_by(alloc, disk, limit, false)
    }

    /// Opens the log of a disk as `open` does, and also one of the old version.
    pub fn open_any<D: Disk>(alloc: Global, disk: &mut D, limit: u64) -> Result<Log, OpenError>
        requires rest { IsAtRest D.seen D.may_leave disk.old }
        requires fit { ForSome (D.seen disk.old) Fit }
        ensures { Opens D.seen D.may_leave D.moment D.left_since D.faults true limit disk.old disk.new result }
    {
        open_by(alloc, disk, limit, true)
    }
}

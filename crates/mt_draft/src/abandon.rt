//! A draft is given up: the room that it took is free again.
ghost use Rattle.std.specs.Prelude.{◌≡◌, option_map, OnOk};
ghost use Rattle.std.specs.Option.{ForSome};
ghost use Rattle.mt_base.specs.Counts.{HasCause};
ghost use Rattle.mt_disk.specs.CrashModel.{IsAtRest, LeavesOnly};
ghost use Rattle.mt_log.specs.LogImage.{SameLog};
ghost use Rattle.mt_draft.specs.Drafts.{HasFirmLog, other_of};
ghost use Rattle.mt_draft.specs.Steps.{with_none};

use crate::draft::Draft;
use crate::finish::empty;
use crate::opening::other;
use mt_disk::{Disk, DiskFault};
use mt_log::Log;

impl Draft {
    /// Gives the draft up, also after `Full`, `Disk` or `Memory`: the file that the log isn't in is emptied and synced, by two calls of the
    /// disk. The log is as it was, and goes on only once it is opened again.
    pub fn abandon<D: Disk>(self, disk: &mut D, log: &Log) -> Result<(), DiskFault>
        requires firm { ForSome (D.seen disk.old) (λ files. HasFirmLog (D.may_leave disk.old) files log.now) }

        // The other file is empty, and all is on the disk.
        ensures emptied { OnOk result (D.seen disk.new ≡ option_map (with_none (other_of log.now.file)) (D.seen disk.old)) }
        ensures rest { OnOk result (IsAtRest D.seen D.may_leave disk.new) }

        // The log stays as it was, also in a crash at any moment of the call.
        ensures any_moment { ForSome (D.seen disk.old) (λ files. LeavesOnly D.moment D.left_since disk.old disk.new (SameLog files)) }
        ensures stays { D.stays disk.old disk.new }
        ensures cause { HasCause (D.faults disk.old) (D.faults disk.new) result }
    {
        let file = other(log.file());
        empty(disk, file)
    }
}

//! Which file holds the log of a disk whose Head isn't empty.
ghost use Rattle.std.specs.Prelude.{◌≡◌, ◌<◌, length, is_some, Some, IfOk, OnOk};
ghost use Rattle.std.specs.Option.{ForSome};
ghost use Rattle.mt_base.specs.Counts.{HasCause};
ghost use Rattle.mt_disk.specs.declared.disk.FileNo.TheVariants.{One};
ghost use Rattle.mt_disk.specs.CrashModel.{IsAtRest, LeavesOnly, OnlyRead};
ghost use Rattle.mt_log.specs.LogImage.{SameLog, chosen_file};
ghost use Rattle.mt_log.specs.LogState.{Settled};
ghost use Rattle.mt_log.specs.Stage.{IsMissing};
ghost use Rattle.mt_log.specs.Choice.{IsChoice};

use crate::log::EMPTY_LEN;
use crate::new_log::name;
use mt_disk::{Disk, DiskFault, FileNo};

/// The byte of Head that names Two.
const NAMES_TWO: u8 = 2;

/// What Head names.
#[derive(Clone, Copy)]
pub(crate) enum Choice {
    /// One.
    First,
    /// Two, which is as long as a log.
    Second,
    /// Two, which is shorter: the log is One.
    Missing,
}

// Reads what Head names.
fn look<D: Disk>(disk: &mut D) -> Result<Choice, DiskFault>
    requires { ForSome (D.seen disk.old) (λ files. 0 < length files.head) }
    ensures choice { IfOk result (λ choice. ForSome (D.seen disk.old) (λ files. IsChoice choice files)) }
    ensures read { OnlyRead D.seen D.may_leave D.moment D.left_since disk.old disk.new }
    ensures cause { HasCause (D.faults disk.old) (D.faults disk.new) result }
{
    let mut head = [0];
    disk.read(FileNo::Head, 0, &mut head)?;
    if head[0] != NAMES_TWO {
        return Ok(Choice::First);
    }
    let len = disk.len(FileNo::Two)?;
    if len < EMPTY_LEN {
        return Ok(Choice::Missing);
    }
    Ok(Choice::Second)
}

// Names One in a Head that names a log which isn't there.
fn repair<D: Disk>(disk: &mut D) -> Result<(), DiskFault>
    requires rest { IsAtRest D.seen D.may_leave disk.old }
    requires missing { ForSome (D.seen disk.old) IsMissing }
    ensures chosen { OnOk result (ForSome (D.seen disk.new) (λ files. chosen_file files ≡ Some One)) }
    ensures settled { OnOk result (ForSome (D.seen disk.old) (λ files. Settled D.seen D.may_leave disk.new files)) }
    ensures told { OnOk result (is_some (D.seen disk.new) ≡ is_some (D.seen disk.old)) }
    ensures any_moment { ForSome (D.seen disk.old) (λ files. LeavesOnly D.moment D.left_since disk.old disk.new (SameLog files)) }
    ensures cause { HasCause (D.faults disk.old) (D.faults disk.new) result }
{
    name(disk)?;
    Ok(())
}

/// Gives the file that holds the log. Where Head names Two, and Two is shorter than a log, Head is made to name One.
pub(crate) fn choose<D: Disk>(disk: &mut D) -> Result<FileNo, DiskFault>
    requires rest { IsAtRest D.seen D.may_leave disk.old }
    requires head { ForSome (D.seen disk.old) (λ files. 0 < length files.head) }
    ensures chosen { IfOk result (λ file. ForSome (D.seen disk.new) (λ files. chosen_file files ≡ Some file)) }
    ensures settled { OnOk result (ForSome (D.seen disk.old) (λ files. Settled D.seen D.may_leave disk.new files)) }
    ensures told { OnOk result (is_some (D.seen disk.new) ≡ is_some (D.seen disk.old)) }
    ensures any_moment { ForSome (D.seen disk.old) (λ files. LeavesOnly D.moment D.left_since disk.old disk.new (SameLog files)) }
    ensures cause { HasCause (D.faults disk.old) (D.faults disk.new) result }
{
    match look(disk)? {
        Choice::First => Ok(FileNo::One),
        Choice::Second => Ok(FileNo::Two),
        Choice::Missing => {
            repair(disk)?;
            Ok(FileNo::One)
        }
    }
}

//! The byte of Head, which names the file that holds the log.
ghost use Rattle.std.specs.Prelude.{◌≡◌, Some, true, false, is_some, option_map, IfOk, OnOk};
ghost use Rattle.std.specs.Option.{ForSome};
ghost use Rattle.mt_base.specs.Counts.{HasCause};
ghost use Rattle.mt_disk.specs.declared.disk.FileNo.TheVariants.{One};
ghost use Rattle.mt_disk.specs.CrashModel.{IsAtRest, LeavesOnly, OnlyRead};
ghost use Rattle.mt_log.specs.LogImage.{SameLog, chosen_file};
ghost use Rattle.mt_log.specs.Stage.{IsMissing, IsNaming};
ghost use Rattle.mt_draft.specs.Drafts.{IsFirm};
ghost use Rattle.mt_draft.specs.Steps.{IsMended, with_named};

use mt_disk::{Disk, DiskFault, FileNo};

/// The byte that names One.
pub(crate) const NAMES_ONE: u8 = 1;

/// The byte that names Two.
pub(crate) const NAMES_TWO: u8 = 2;

// Whether Head's first byte is that of Two.
fn names_two<D: Disk>(disk: &mut D) -> Result<bool, DiskFault>
    requires { ForSome (D.seen disk.old) (λ files. chosen_file files ≡ Some One) }
    ensures firm { IfOk result (λ names. ForSome (D.seen disk.old) (λ files. names ≡ false → IsFirm files One)) }
    ensures missing { IfOk result (λ names. ForSome (D.seen disk.old) (λ files. names ≡ true → IsMissing files)) }
    ensures read { OnlyRead D.seen D.may_leave D.moment D.left_since disk.old disk.new }
    ensures stays { D.stays disk.old disk.new }
    ensures cause { HasCause (D.faults disk.old) (D.faults disk.new) result }
{
    let mut head = [0];
    disk.read(FileNo::Head, 0, &mut head)?;
    Ok(head[0] == NAMES_TWO)
}

/// Gives Head this first byte, and syncs it.
pub(crate) fn name<D: Disk>(disk: &mut D, byte: u8) -> Result<(), DiskFault>
    requires { IsAtRest D.seen D.may_leave disk.old }
    ensures named { OnOk result (D.seen disk.new ≡ option_map (with_named byte) (D.seen disk.old)) }
    ensures rest { OnOk result (IsAtRest D.seen D.may_leave disk.new) }
    ensures any_moment { ForSome (D.seen disk.old) (λ files. LeavesOnly D.moment D.left_since disk.old disk.new (IsNaming files)) }
    ensures stays { D.stays disk.old disk.new }
    ensures cause { HasCause (D.faults disk.old) (D.faults disk.new) result }
{
    disk.write_at(FileNo::Head, 0, &[byte])?;
    disk.sync(FileNo::Head)?;
    Ok(())
}

// Has Head name One, where the log is. Head may name a log in Two that isn't there: then the log is in One, and would not be once
// something was written into Two.
fn mend<D: Disk>(disk: &mut D) -> Result<(), DiskFault>
    requires rest { IsAtRest D.seen D.may_leave disk.old }
    requires chosen { ForSome (D.seen disk.old) (λ files. chosen_file files ≡ Some One) }
    ensures mended { OnOk result (ForSome (D.seen disk.old) (λ files. IsMended D.seen D.may_leave disk.new files One)) }
    ensures told { OnOk result (is_some (D.seen disk.new) ≡ is_some (D.seen disk.old)) }
    ensures any_moment { ForSome (D.seen disk.old) (λ files. LeavesOnly D.moment D.left_since disk.old disk.new (SameLog files)) }
    ensures stays { D.stays disk.old disk.new }
    ensures cause { HasCause (D.faults disk.old) (D.faults disk.new) result }
{
    let wrong = names_two(disk)?;
    if !wrong {
        return Ok(());
    }
    name(disk, NAMES_ONE)?;
    Ok(())
}

/// Has Head name the file of the log, whatever the other one holds.
pub(crate) fn make_firm<D: Disk>(disk: &mut D, file: FileNo) -> Result<(), DiskFault>
    requires rest { IsAtRest D.seen D.may_leave disk.old }
    requires chosen { ForSome (D.seen disk.old) (λ files. chosen_file files ≡ Some file) }
    ensures mended { OnOk result (ForSome (D.seen disk.old) (λ files. IsMended D.seen D.may_leave disk.new files file)) }
    ensures told { OnOk result (is_some (D.seen disk.new) ≡ is_some (D.seen disk.old)) }
    ensures any_moment { ForSome (D.seen disk.old) (λ files. LeavesOnly D.moment D.left_since disk.old disk.new (SameLog files)) }
    ensures stays { D.stays disk.old disk.new }
    ensures cause { HasCause (D.faults disk.old) (D.faults disk.new) result }
{
    match file {
        FileNo::One => mend(disk),
        FileNo::Two => Ok(()),
        FileNo::Head => Ok(()),
    }
}

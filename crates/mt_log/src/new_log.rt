//! A disk's first log.
ghost use Rattle.std.specs.Prelude.{◌≡◌, [], false, is_some, length, IfOk, IfSome, OnOk, option_map};
ghost use Rattle.std.specs.Option.{ForSome};
ghost use Rattle.mt_base.specs.Counts.{HasCause};
ghost use Rattle.mt_disk.specs.declared.disk.FileNo.TheVariants.{One};
ghost use Rattle.mt_disk.specs.CrashModel.{IsAtRest, LeavesOnly, Untouched};
ghost use Rattle.mt_log.specs.LogImage.{Fit, SameLog, magic_size};
ghost use Rattle.mt_log.specs.LogState.{Settled, Tells};
ghost use Rattle.mt_log.specs.Stage.{empty_log, with_empty_log, with_one_named, IsHeadless, IsNaming};

use mt_disk::{Disk, DiskFault, FileNo};

/// A log without a payload: its first eight bytes and a closed gate.
const EMPTY_LOG: [u8; 9] = *b"MTLOG002\0";

/// Syncs each file, and gives the length of Head.
pub(crate) fn settle<D: Disk>(disk: &mut D) -> Result<u64, DiskFault>
    ensures head { IfOk result (λ n. IfSome (D.seen disk.old) (λ files. n ≡ length files.head)) }
    ensures untouched { Untouched D.seen D.may_leave D.moment D.left_since disk.old disk.new }
    ensures cause { HasCause (D.faults disk.old) (D.faults disk.new) result }
{
    disk.sync(FileNo::Head)?;
    disk.sync(FileNo::One)?;
    disk.sync(FileNo::Two)?;
    disk.len(FileNo::Head)
}

// Makes an empty log in One.
fn lay<D: Disk>(disk: &mut D) -> Result<(), DiskFault>
    requires rest { IsAtRest D.seen D.may_leave disk.old }
    requires empty { ForSome (D.seen disk.old) (λ files. files.head ≡ []) }
    ensures laid { OnOk result (D.seen disk.new ≡ option_map with_empty_log (D.seen disk.old)) }
    ensures rest { OnOk result (IsAtRest D.seen D.may_leave disk.new) }
    ensures any_moment { ForSome (D.seen disk.old) (λ files. LeavesOnly D.moment D.left_since disk.old disk.new (IsHeadless files)) }
    ensures cause { HasCause (D.faults disk.old) (D.faults disk.new) result }
{
    disk.cut(FileNo::One, 0)?;
    disk.write_at(FileNo::One, 0, &EMPTY_LOG)?;
    disk.sync(FileNo::One)?;
    Ok(())
}

/// Names One in Head.
pub(crate) fn name<D: Disk>(disk: &mut D) -> Result<(), DiskFault>
    requires { IsAtRest D.seen D.may_leave disk.old }
    ensures named { OnOk result (D.seen disk.new ≡ option_map with_one_named (D.seen disk.old)) }
    ensures rest { OnOk result (IsAtRest D.seen D.may_leave disk.new) }
    ensures any_moment { ForSome (D.seen disk.old) (λ files. LeavesOnly D.moment D.left_since disk.old disk.new (IsNaming files)) }
    ensures cause { HasCause (D.faults disk.old) (D.faults disk.new) result }
{
    disk.write_at(FileNo::Head, 0, &[1])?;
    disk.sync(FileNo::Head)?;
    Ok(())
}

/// Makes an empty log in One, and then names One in Head.
pub(crate) fn make<D: Disk>(disk: &mut D) -> Result<(), DiskFault>
    requires rest { IsAtRest D.seen D.may_leave disk.old }
    requires empty { ForSome (D.seen disk.old) (λ files. files.head ≡ []) }
    requires fit { ForSome (D.seen disk.old) Fit }
    ensures made { OnOk result (ForSome (D.seen disk.old) (λ files. Tells D.seen D.may_leave disk.new One magic_size false [])) }
    ensures settled { OnOk result (ForSome (D.seen disk.old) (λ files. Settled D.seen D.may_leave disk.new files)) }
    ensures told { OnOk result (is_some (D.seen disk.new) ≡ is_some (D.seen disk.old)) }
    ensures any_moment { ForSome (D.seen disk.old) (λ files. LeavesOnly D.moment D.left_since disk.old disk.new (SameLog files)) }
    ensures cause { HasCause (D.faults disk.old) (D.faults disk.new) result }
{
    // The log has to be on the disk before Head names it.
    lay(disk)?;
    name(disk)?;
    Ok(())
}

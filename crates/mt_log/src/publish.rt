//! Opening the closed gate before records that stand behind it.
ghost use Rattle.std.specs.Prelude.{◌≡◌, ◌++◌, ℕ, Bool, List, OnOk, is_some};
ghost use Rattle.std.specs.Option.{ForSome};
ghost use Rattle.mt_base.specs.Counts.{HasCause};
ghost use Rattle.mt_disk.specs.Files.{Files};
ghost use Rattle.mt_disk.specs.CrashModel.{LeavesOnly};
ghost use Rattle.mt_log.specs.LogImage.{IsBeforeOrAfter, payloads_of};
ghost use Rattle.mt_log.specs.LogState.{OthersStay, Tells};
ghost use Rattle.mt_log.specs.Stage.{KeepsFront, Laid};

use mt_disk::{Disk, DiskFault, FileNo};

/// Makes the records behind the closed gate count, all at once: they are whole on the disk before the gate is opened.
pub(crate) fn publish<D: Disk>(disk: &mut D, file: FileNo, gate: u64) -> Result<(), DiskFault>
    requires front { ForSome (D.seen disk.old) (λ files. (c : Files) → D.may_leave disk.old c → KeepsFront files file gate c) }
    ensures added { OnOk result (ForSome (D.seen disk.old) (λ files. (next : ℕ) (old : Bool) (records : List (List ℕ)) → Laid files file gate next old records →
        Tells D.seen D.may_leave disk.new file next old (payloads_of files ++ records))) }
    ensures others { OnOk result (OthersStay file (D.seen disk.old) (D.seen disk.new)) }
    ensures told { OnOk result (is_some (D.seen disk.new) ≡ is_some (D.seen disk.old)) }
    ensures any_moment { ForSome (D.seen disk.old) (λ files. (next : ℕ) (old : Bool) (records : List (List ℕ)) → Laid files file gate next old records →
        LeavesOnly D.moment D.left_since disk.old disk.new (IsBeforeOrAfter files records)) }
    ensures cause { HasCause (D.faults disk.old) (D.faults disk.new) result }
{
    disk.sync(file)?;
    disk.write_at(file, gate, &[1])?;
    disk.sync(file)
}

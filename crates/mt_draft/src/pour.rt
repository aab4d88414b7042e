//! What is held goes to the disk.
ghost use Rattle.std.specs.Prelude.{◌≡◌, [], is_some, length, option_map, OnOk};
ghost use Rattle.std.specs.Option.{ForSome};
ghost use Rattle.mt_base.specs.Counts.{HasCause};
ghost use Rattle.mt_disk.specs.Files.{Files, contents};
ghost use Rattle.mt_disk.specs.CrashModel.{LeavesOnly};
ghost use Rattle.mt_draft.specs.Drafts.{KeepsBut, next_of};
ghost use Rattle.mt_draft.specs.Steps.{Poured, with_none};

use crate::draft::{Draft, PIECE};
use mt_disk::{Disk, DiskFault, FileNo};

/// Empties a file.
pub(crate) fn clear<D: Disk>(disk: &mut D, file: FileNo) -> Result<(), DiskFault>
    ensures cleared { OnOk result (D.seen disk.new ≡ option_map (with_none file) (D.seen disk.old)) }
    ensures images { (files : Files) → ((c : Files) → D.may_leave disk.old c → KeepsBut file files c)
        → LeavesOnly D.moment D.left_since disk.old disk.new (KeepsBut file files) }
    ensures stays { D.stays disk.old disk.new }
    ensures cause { HasCause (D.faults disk.old) (D.faults disk.new) result }
{
    disk.cut(file, 0)
}

impl Draft {
    /// Writes what is held, behind what was written.
    pub(crate) fn write<D: Disk>(&mut self, disk: &mut D) -> Result<(), DiskFault>
        requires at { ForSome (D.seen disk.old) (λ files. self.old.written ≡ length (contents files self.old.file)) }
        ensures poured { OnOk result (ForSome (D.seen disk.old) (λ files. ForSome (D.seen disk.new) (λ now. Poured files now self.old self.new))) }
        ensures none_held { OnOk result (self.new.held ≡ []) }
        ensures keeps { OnOk result ((self.new.limit ≡ self.old.limit) × (next_of self.new ≡ next_of self.old) × (self.new.file ≡ self.old.file)) }
        ensures told { is_some (D.seen disk.new) ≡ is_some (D.seen disk.old) }
        ensures images { (files : Files) → ((c : Files) → D.may_leave disk.old c → KeepsBut self.old.file files c)
            → LeavesOnly D.moment D.left_since disk.old disk.new (KeepsBut self.old.file files) }
        ensures stays { D.stays disk.old disk.new }
        ensures cause { HasCause (D.faults disk.old) (D.faults disk.new) result }
    {
        disk.write_at(self.file, self.written, &self.held)?;
        self.written += self.held.len() as u64;
        self.held.clear();
        Ok(())
    }

    /// Writes what is held, where it is a piece or more.
    pub(crate) fn pour<D: Disk>(&mut self, disk: &mut D) -> Result<(), DiskFault>
        requires at { ForSome (D.seen disk.old) (λ files. self.old.written ≡ length (contents files self.old.file)) }
        ensures poured { OnOk result (ForSome (D.seen disk.old) (λ files. ForSome (D.seen disk.new) (λ now. Poured files now self.old self.new))) }
        ensures keeps { OnOk result ((self.new.limit ≡ self.old.limit) × (next_of self.new ≡ next_of self.old) × (self.new.file ≡ self.old.file)) }
        ensures told { is_some (D.seen disk.new) ≡ is_some (D.seen disk.old) }
        ensures images { (files : Files) → ((c : Files) → D.may_leave disk.old c → KeepsBut self.old.file files c)
            → LeavesOnly D.moment D.left_since disk.old disk.new (KeepsBut self.old.file files) }
        ensures stays { D.stays disk.old disk.new }
        ensures cause { HasCause (D.faults disk.old) (D.faults disk.new) result }
    {
        let held = self.held.len();
        if held < PIECE {
            return Ok(());
        }
        self.write(disk)
    }
}

//! The draft takes the log's place: it is whole on the disk before Head names it, and the old log is emptied only when Head is on the disk.
ghost use Rattle.std.specs.Prelude.{◌≡◌, ◌⊎◌, ◌+◌, List, ℕ, is_some, length, option_map, IfOk, OnOk};
ghost use Rattle.std.specs.Option.{ForSome};
ghost use Rattle.mt_base.specs.Counts.{HasCause};
ghost use Rattle.mt_disk.specs.Files.{Files, contents};
ghost use Rattle.mt_disk.specs.CrashModel.{IsAtRest, LeavesOnly};
ghost use Rattle.mt_log.specs.LogImage.{SameLog, log_size};
ghost use Rattle.mt_draft.specs.Drafts.{Drafting, HasMoved, IsDrafted, IsMoved, KeepsBut, next_of};
ghost use Rattle.mt_draft.specs.Steps.{name_of, sealed, with_none};

use crate::draft::Draft;
use crate::head::{NAMES_ONE, NAMES_TWO, name};
use crate::pour::clear;
use mt_disk::{Disk, DiskFault, FileNo};
use mt_log::Log;

// The byte of Head that names a file.
fn name_of(file: FileNo) -> u8
    ensures { result ≡ name_of file }
{
    match file {
        FileNo::One => NAMES_ONE,
        FileNo::Two => NAMES_TWO,
        FileNo::Head => NAMES_ONE,
    }
}

/// Empties a file, and syncs it, where a crash leaves all others as they are.
pub(crate) fn empty<D: Disk>(disk: &mut D, file: FileNo) -> Result<(), DiskFault>
    requires images { ForSome (D.seen disk.old) (λ files. (c : Files) → D.may_leave disk.old c → KeepsBut file files c) }
    ensures emptied { OnOk result (D.seen disk.new ≡ option_map (with_none file) (D.seen disk.old)) }
    ensures rest { OnOk result (IsAtRest D.seen D.may_leave disk.new) }
    ensures any_moment { ForSome (D.seen disk.old) (λ files. LeavesOnly D.moment D.left_since disk.old disk.new (KeepsBut file files)) }
    ensures stays { D.stays disk.old disk.new }
    ensures cause { HasCause (D.faults disk.old) (D.faults disk.new) result }
{
    clear(disk, file)?;
    disk.sync(file)?;
    Ok(())
}

impl Draft {
    // Writes what is held and a closed gate behind it, and syncs the file.
    fn seal<D: Disk>(&mut self, disk: &mut D) -> Result<(), DiskFault>
        requires at { ForSome (D.seen disk.old) (λ files. self.old.written ≡ length (contents files self.old.file)) }
        requires images { ForSome (D.seen disk.old) (λ files. (c : Files) → D.may_leave disk.old c → KeepsBut self.old.file files c) }
        ensures sealed { OnOk result (D.seen disk.new ≡ option_map (sealed self.old) (D.seen disk.old)) }
        ensures rest { OnOk result (IsAtRest D.seen D.may_leave disk.new) }
        ensures told { is_some (D.seen disk.new) ≡ is_some (D.seen disk.old) }
        ensures any_moment { ForSome (D.seen disk.old) (λ files. LeavesOnly D.moment D.left_since disk.old disk.new (KeepsBut self.old.file files)) }
        ensures stays { D.stays disk.old disk.new }
        ensures cause { HasCause (D.faults disk.old) (D.faults disk.new) result }
    {
        self.write(disk)?;
        disk.write_at(self.file, self.written, &[0])?;
        disk.sync(self.file)?;
        Ok(())
    }

    // The same, and after a fault its file is emptied, as far as the disk lets it, so that the room is free again.
    fn seal_or_empty<D: Disk>(&mut self, disk: &mut D) -> Result<(), DiskFault>
        requires at { ForSome (D.seen disk.old) (λ files. self.old.written ≡ length (contents files self.old.file)) }
        requires images { ForSome (D.seen disk.old) (λ files. (c : Files) → D.may_leave disk.old c → KeepsBut self.old.file files c) }
        ensures sealed { OnOk result (D.seen disk.new ≡ option_map (sealed self.old) (D.seen disk.old)) }
        ensures rest { OnOk result (IsAtRest D.seen D.may_leave disk.new) }
        ensures any_moment { ForSome (D.seen disk.old) (λ files. LeavesOnly D.moment D.left_since disk.old disk.new (KeepsBut self.old.file files)) }
        ensures stays { D.stays disk.old disk.new }
        ensures cause { HasCause (D.faults disk.old) (D.faults disk.new) result }
    {
        let file = self.file;
        match self.seal(disk) {
            Ok(()) => Ok(()),
            Err(fault) => {
                let _ = empty(disk, file);
                Err(fault)
            }
        }
    }

    /// Puts the draft in the log's place, and gives its length in bytes, with its closed gate: up to seven calls of the disk, and no
    /// memory. The log is then to be opened. After a fault the disk has the log as it was or the new one, whole, and is to be opened;
    /// a draft that could not be written to its end is emptied, as far as the disk lets it.
    pub fn finish<D: Disk>(self, disk: &mut D, log: Log) -> Result<u64, DiskFault>
        requires drafting { Drafting D.seen D.may_leave disk.old log self }

        // The draft is the log, and all of it is on the disk.
        ensures moved { OnOk result (ForSome (D.seen disk.old) (λ files. (qs : List (List ℕ)) → IsDrafted files log self qs →
            ForSome (D.seen disk.new) (λ now. HasMoved log self qs now))) }
        ensures rest { OnOk result (IsAtRest D.seen D.may_leave disk.new) }
        ensures told { OnOk result (is_some (D.seen disk.new) ≡ is_some (D.seen disk.old)) }
        ensures size { IfOk result (λ size. size ≡ next_of self + 1) }
        ensures log_size { IfOk result (λ size. ForSome (D.seen disk.old) (λ files. (qs : List (List ℕ)) → IsDrafted files log self qs → size ≡ log_size qs)) }

        // A crash at any moment of the call leaves the log as it was, or the new one.
        ensures any_moment { ForSome (D.seen disk.old) (λ files. (qs : List (List ℕ)) → IsDrafted files log self qs →
            LeavesOnly D.moment D.left_since disk.old disk.new (λ c. SameLog files c ⊎ IsMoved qs c)) }
        ensures stays { D.stays disk.old disk.new }
        ensures cause { HasCause (D.faults disk.old) (D.faults disk.new) result }
    {
        let size = self.len();
        let byte = name_of(self.file());
        let old = log.file();
        let mut draft = self;
        draft.seal_or_empty(disk)?;
        name(disk, byte)?;
        empty(disk, old)?;
        Ok(size)
    }
}

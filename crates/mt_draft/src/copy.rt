//! Records of the log, as bytes: their digests were judged when the log was opened, and they are the same in both versions.
ghost use Rattle.std.specs.Prelude.{◌≡◌, ◌≢◌, ◌↔◌, ◌<◌, ◌≤◌, ◌+◌, ◌++◌, Err, List, ℕ, is_some, length, take, drop, IfOk, IsErrOf, OnOk};
ghost use Rattle.std.specs.List.{flat_map};
ghost use Rattle.std.specs.Option.{ForSome};
ghost use Rattle.mt_base.specs.Counts.{NeverFell, Rose};
ghost use Rattle.mt_disk.specs.Files.{contents};
ghost use Rattle.mt_disk.specs.CrashModel.{LeavesOnly, OnlyRead};
ghost use Rattle.mt_log.specs.LogImage.{SameLog, payloads_of, record_of};
ghost use Rattle.mt_log.specs.LogState.{told};
ghost use Rattle.mt_log.specs.Places.{end_of, from_place};
ghost use Rattle.mt_draft.specs.Drafts.{Drafting, HasFirmLog, IsDrafted, KeepsLog, next_of, size_after};
ghost use Rattle.mt_draft.specs.Steps.{Grew, IsOpenDraft};

use crate::draft::{Draft, DraftEnd, PIECE};
use crate::part::read_more;
use mt_disk::{Disk, FileNo};
use mt_log::Log;

impl Draft {
    // Holds so many bytes of a file more.
    fn hold_part<D: Disk>(
        &mut self,
        disk: &mut D,
        file: FileNo,
        at: u64,
        count: usize,
    ) -> Result<(), DraftEnd>
        requires room { size_after self.old count ≤ self.old.limit }
        requires within { ForSome (D.seen disk.old) (λ files. at + count ≤ length (contents files file)) }
        ensures held { OnOk result (ForSome (D.seen disk.old) (λ files. self.new.held ≡ self.old.held ++ take count (drop at (contents files file)))) }
        ensures next { OnOk result (length self.new.held ≡ length self.old.held + count) }
        ensures keeps { OnOk result ((self.new.file ≡ self.old.file) × (self.new.written ≡ self.old.written) × (self.new.limit ≡ self.old.limit)) }
        ensures read { OnlyRead D.seen D.may_leave D.moment D.left_since disk.old disk.new }
        ensures never_full { result ≢ Err DraftEnd.Full }
        ensures disk { IsErrOf result DraftEnd.Disk → Rose (D.faults disk.old) (D.faults disk.new) }
        ensures stays { D.stays disk.old disk.new }
        ensures faults { NeverFell (D.faults disk.old) (D.faults disk.new) }
    {
        read_more(disk, file, at, &mut self.held, count)
    }

    // Adds so many bytes of the log.
    fn add_part<D: Disk>(
        &mut self,
        disk: &mut D,
        log: &Log,
        at: u64,
        count: usize,
    ) -> Result<(), DraftEnd>
        requires draft { ForSome (D.seen disk.old) (λ files. IsOpenDraft (D.may_leave disk.old) files log.now self.old) }
        requires room { size_after self.old count ≤ self.old.limit }
        requires within { ForSome (D.seen disk.old) (λ files. at + count ≤ length (contents files log.now.file)) }
        ensures draft { OnOk result (ForSome (D.seen disk.new) (λ now. IsOpenDraft (D.may_leave disk.new) now log.now self.new)) }
        ensures grew { OnOk result (ForSome (D.seen disk.old) (λ files. ForSome (D.seen disk.new) (λ now.
            Grew files now log.now self.old self.new (take count (drop at (contents files log.now.file)))))) }
        ensures next { OnOk result ((next_of self.new ≡ next_of self.old + count) × (self.new.limit ≡ self.old.limit)) }
        ensures told { is_some (D.seen disk.new) ≡ is_some (D.seen disk.old) }
        ensures any_moment { ForSome (D.seen disk.old) (λ files. LeavesOnly D.moment D.left_since disk.old disk.new (KeepsLog files log.now.file)) }
        ensures never_full { result ≢ Err DraftEnd.Full }
        ensures disk { IsErrOf result DraftEnd.Disk → Rose (D.faults disk.old) (D.faults disk.new) }
        ensures stays { D.stays disk.old disk.new }
        ensures faults { NeverFell (D.faults disk.old) (D.faults disk.new) }
    {
        self.hold_part(disk, log.file(), at, count)?;
        self.pour(disk)?;
        Ok(())
    }

    // Adds so many bytes of the log, piece by piece.
    fn add_bytes<D: Disk>(
        &mut self,
        disk: &mut D,
        log: &Log,
        from: u64,
        size: u64,
    ) -> Result<(), DraftEnd>
        requires draft { ForSome (D.seen disk.old) (λ files. IsOpenDraft (D.may_leave disk.old) files log.now self.old) }
        requires room { size_after self.old size ≤ self.old.limit }
        requires within { ForSome (D.seen disk.old) (λ files. 0 < size → from + size ≤ log.now.gate) }
        ensures draft { OnOk result (ForSome (D.seen disk.new) (λ now. IsOpenDraft (D.may_leave disk.new) now log.now self.new)) }
        ensures grew { OnOk result (ForSome (D.seen disk.old) (λ files. ForSome (D.seen disk.new) (λ now.
            Grew files now log.now self.old self.new (take size (drop from (contents files log.now.file)))))) }
        ensures next { OnOk result ((next_of self.new ≡ next_of self.old + size) × (self.new.limit ≡ self.old.limit)) }
        ensures told { is_some (D.seen disk.new) ≡ is_some (D.seen disk.old) }
        ensures any_moment { ForSome (D.seen disk.old) (λ files. LeavesOnly D.moment D.left_since disk.old disk.new (KeepsLog files log.now.file)) }
        ensures never_full { result ≢ Err DraftEnd.Full }
        ensures disk { IsErrOf result DraftEnd.Disk → Rose (D.faults disk.old) (D.faults disk.new) }
        ensures stays { D.stays disk.old disk.new }
        ensures faults { NeverFell (D.faults disk.old) (D.faults disk.new) }
    {
        // No record reaches past the closed gate.
        let end = log.len();
        let mut done = 0;
        while done < size {
            let at = from.saturating_add(done).min(end);
            let count = (size - done).min(PIECE as u64);
            self.add_part(disk, log, at, count as usize)?;
            done += count;
        }
        Ok(())
    }

    /// Adds the records of the log that stand from a place on, so many bytes of whole ones, and gives the place of the first of them.
    /// It makes two calls of the disk for 65,536 bytes, one for fewer than are held then, and takes memory for these. After `Full`
    /// the draft goes on without them; after `Disk` and `Memory` it is to be given up.
    pub fn copy<D: Disk>(
        &mut self,
        disk: &mut D,
        log: &Log,
        from: u64,
        size: u64,
    ) -> Result<u64, DraftEnd>
        requires drafting { Drafting D.seen D.may_leave disk.old log.now self.old }
        requires whole { ForSome (told (D.seen disk.old)) (λ ps. (k : ℕ) × (size ≡ length (flat_map record_of (take k (from_place from ps))))) }

        // The draft gets the payloads of these records behind those from before.
        ensures taken { ForSome (D.seen disk.old) (λ files. (qs : List (List ℕ)) (k : ℕ) → IsDrafted files log.now self.old qs →
            size ≡ length (flat_map record_of (take k (from_place from (payloads_of files)))) →
            OnOk result (ForSome (D.seen disk.new) (λ now. IsDrafted now log.now self.new (qs ++ take k (from_place from (payloads_of files)))))) }
        ensures place { IfOk result (λ place. place ≡ next_of self.old) }
        ensures at_end { IfOk result (λ place. ForSome (D.seen disk.old) (λ files. (qs : List (List ℕ)) → IsDrafted files log.now self.old qs → place ≡ end_of qs)) }
        ensures next { OnOk result ((next_of self.new ≡ next_of self.old + size) × (self.new.limit ≡ self.old.limit)) }
        ensures drafting { OnOk result (Drafting D.seen D.may_leave disk.new log.now self.new) }

        // However it ends, the draft can be given up.
        ensures firm { ForSome (D.seen disk.new) (λ files. HasFirmLog (D.may_leave disk.new) files log.now) }

        // The log stays as it was, also in a crash at any moment of the call.
        ensures same { OnOk result (told (D.seen disk.new) ≡ told (D.seen disk.old)) }
        ensures any_moment { ForSome (D.seen disk.old) (λ files. LeavesOnly D.moment D.left_since disk.old disk.new (SameLog files)) }

        ensures full { IsErrOf result DraftEnd.Full ↔ (self.old.limit < size_after self.old size) }
        ensures unchanged { IsErrOf result DraftEnd.Full → (disk.new ≡ disk.old) × (self.new ≡ self.old) }
        ensures disk { IsErrOf result DraftEnd.Disk → Rose (D.faults disk.old) (D.faults disk.new) }
        ensures stays { D.stays disk.old disk.new }
        ensures faults { NeverFell (D.faults disk.old) (D.faults disk.new) }
    {
        if !self.has_room(size) {
            return Err(DraftEnd::Full);
        }
        let place = self.next();
        self.add_bytes(disk, log, from, size)?;
        Ok(place)
    }
}

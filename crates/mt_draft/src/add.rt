//! A record more.
ghost use Rattle.std.specs.Prelude.{◌≡◌, ◌↔◌, ◌<◌, ◌≤◌, ◌+◌, ◌^◌, ◌++◌, ◌∷◌, [], List, ℕ, length, IfOk, IsErrOf, OnOk};
ghost use Rattle.std.specs.Option.{ForSome};
ghost use Rattle.mt_base.specs.Counts.{NeverFell, Rose};
ghost use Rattle.mt_disk.specs.CrashModel.{LeavesOnly};
ghost use Rattle.mt_log.specs.LogImage.{SameLog, record_head, record_of};
ghost use Rattle.mt_log.specs.LogState.{next_place, told};
ghost use Rattle.mt_log.specs.Places.{end_of};
ghost use Rattle.mt_draft.specs.Drafts.{Drafting, HasFirmLog, IsDrafted, next_of, size_after};

use crate::draft::{Draft, DraftEnd, RECORD_HEAD};
use crate::record::push_record;
use mt_disk::Disk;
use mt_log::Log;
use std::alloc::AllocError;

impl Draft {
    // Holds a record more.
    fn hold(&mut self, payload: &[u8]) -> Result<(), AllocError>
        requires payload { length payload.now < 2 ^ 32 }
        requires room { size_after self.old (record_head + length payload.now) ≤ self.old.limit }
        ensures held { OnOk result (self.new ≡ record self.old { held = self.old.held ++ record_of payload.now }) }
    {
        push_record(&mut self.held, payload)
    }

    /// Adds a payload of fewer than 2 ^ 32 bytes, and gives its record's place. It makes a call of the disk where 65,536 bytes
    /// or more are held then, and takes memory for the record. After `Full` the draft goes on without it; after `Disk` and
    /// `Memory` it is to be given up.
    pub fn add<D: Disk>(&mut self, disk: &mut D, log: &Log, payload: &[u8]) -> Result<u64, DraftEnd>
        requires drafting { Drafting D.seen D.may_leave disk.old log.now self.old }
        requires payload { length payload.now < 2 ^ 32 }

        // The draft gets this payload behind those from before.
        ensures taken { ForSome (D.seen disk.old) (λ files. (qs : List (List ℕ)) → IsDrafted files log.now self.old qs →
            OnOk result (ForSome (D.seen disk.new) (λ now. IsDrafted now log.now self.new (qs ++ payload.now ∷ [])))) }
        ensures place { IfOk result (λ place. place ≡ next_of self.old) }
        ensures at_end { IfOk result (λ place. ForSome (D.seen disk.old) (λ files. (qs : List (List ℕ)) → IsDrafted files log.now self.old qs → place ≡ end_of qs)) }
        ensures next { OnOk result ((next_of self.new ≡ next_place (next_of self.old) (length payload.now)) × (self.new.limit ≡ self.old.limit)) }
        ensures drafting { OnOk result (Drafting D.seen D.may_leave disk.new log.now self.new) }

        // However it ends, the draft can be given up.
        ensures firm { ForSome (D.seen disk.new) (λ files. HasFirmLog (D.may_leave disk.new) files log.now) }

        // The log stays as it was, also in a crash at any moment of the call.
        ensures same { OnOk result (told (D.seen disk.new) ≡ told (D.seen disk.old)) }
        ensures any_moment { ForSome (D.seen disk.old) (λ files. LeavesOnly D.moment D.left_since disk.old disk.new (SameLog files)) }

        ensures full { IsErrOf result DraftEnd.Full ↔ (self.old.limit < size_after self.old (record_head + length payload.now)) }
        ensures unchanged { IsErrOf result DraftEnd.Full → (disk.new ≡ disk.old) × (self.new ≡ self.old) }
        ensures memory { IsErrOf result DraftEnd.Memory → disk.new ≡ disk.old }
        ensures disk { IsErrOf result DraftEnd.Disk → Rose (D.faults disk.old) (D.faults disk.new) }
        ensures stays { D.stays disk.old disk.new }
        ensures faults { NeverFell (D.faults disk.old) (D.faults disk.new) }
    {
        let size = RECORD_HEAD + payload.len() as u64;
        if !self.has_room(size) {
            return Err(DraftEnd::Full);
        }
        let place = self.next();
        self.hold(payload)?;
        self.pour(disk)?;
        Ok(place)
    }
}

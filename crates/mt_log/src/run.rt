//! Adding a run of records, which count all at once, by one pair of syncs.
ghost use Rattle.std.specs.Prelude.{◌≡◌, ◌≢◌, ◌↔◌, ◌<◌, ◌≤◌, ◌+◌, ◌^◌, ◌++◌, ◌∷◌, [], ℕ, List, Err, true, false, length, IfOk, IsTrue, OnOk, IsErrOf};
ghost use Rattle.std.specs.Option.{ForSome};
ghost use Rattle.mt_base.specs.Counts.{Rose, NeverFell};
ghost use Rattle.mt_disk.specs.CrashModel.{LeavesOnly};
ghost use Rattle.mt_log.specs.LogImage.{IsBeforeOrAfter};
ghost use Rattle.mt_log.specs.LogState.{OthersStay, Stands, next_place, told, with_payloads};
ghost use Rattle.mt_log.specs.RunState.{HasTaken, Running, RunState, size_with_run};
ghost use Rattle.mt_log.specs.Stage.{Laying};
ghost use Rattle.mt_log.specs.Places.{end_of};

use crate::append::AppendError;
use crate::lay::{finish, lay};
use crate::log::{Log, RECORD_HEAD};
use mt_disk::{Disk, DiskFault};
use std::marker::Model;

/// Records behind the closed gate of a log, which count once the run is ended. It holds none of them itself.
#[derive(Drop)]
pub struct Run {
    next: u64,
}

impl Model for Run {
    ghost use Rattle.std.specs.Prelude.{◌<◌, ◌+◌, ◌^◌};
    ghost use Rattle.mt_log.specs.RunState.{RunState};

    ghost Value = { RunState };

    ghost view = { λ r. record { next = r.next } };

    ghost invariant = { λ r. r.next + 1 < 2 ^ 64 };
}

impl Log {
    /// Begins a run of records; none is added to a log of the old version. The log is not to be used but for this run until it is ended.
    pub fn begin_run<D: Disk>(&self, disk: &D) -> Run
        requires stands { Stands D.seen D.may_leave disk.now self.now }
        requires version { self.now.closed ≡ false → self.now.is_old ≡ false }
        ensures place { result ≡ record { next = self.now.gate } }
        ensures running { Running D.seen D.may_leave disk.now self.now result }
        ensures none { self.now.closed ≡ false → HasTaken (D.seen disk.now) self.now result [] }
    {
        let _ = disk;
        Run { next: self.gate }
    }

    /// Whether the limit lets in a payload of so many bytes behind those of a run.
    pub fn has_room_in_run(&self, run: &Run, payload: u64) -> bool
        ensures { IsTrue result ↔ (size_with_run run.now payload ≤ self.now.limit) }
    {
        self.limit > run.next
            && self.limit - run.next > RECORD_HEAD
            && self.limit - run.next - RECORD_HEAD > payload
    }

    /// Adds a payload of fewer than 2 ^ 32 bytes to a run, and gives the place of its record. It makes two calls of
    /// the disk and takes no memory. After `Full` the run goes on without it; after `Disk` the log is closed.
    pub fn add_to_run<D: Disk>(
        &mut self,
        disk: &mut D,
        run: &mut Run,
        payload: &[u8],
    ) -> Result<u64, AppendError>
        requires running { Running D.seen D.may_leave disk.old self.old run.old }
        requires payload { length payload.now < 2 ^ 32 }
        requires order { self.old.closed ≡ false → self.old.gate ≤ run.old.next }
        ensures taken { (records : List (List ℕ)) → HasTaken (D.seen disk.old) self.old run.old records →
            OnOk result (HasTaken (D.seen disk.new) self.new run.new (records ++ payload.now ∷ [])) }
        ensures place { IfOk result (λ place. (place ≡ run.old.next) × (run.new ≡ record { next = next_place run.old.next (length payload.now) }) × (self.new ≡ self.old)) }
        // The payload stands behind those from before and the run's earlier ones.
        ensures at_end { IfOk result (λ place. ForSome (told (D.seen disk.old)) (λ ps. (records : List (List ℕ)) → HasTaken (D.seen disk.old) self.old run.old records → place ≡ end_of (ps ++ records))) }
        ensures running { Running D.seen D.may_leave disk.new self.new run.new }
        ensures order { self.new.closed ≡ false → self.new.gate ≤ run.new.next }

        // The record doesn't count yet: each image of each moment has the payloads of before.
        ensures same { OnOk result (told (D.seen disk.new) ≡ told (D.seen disk.old)) }
        ensures others { OnOk result (OthersStay self.old.file (D.seen disk.old) (D.seen disk.new)) }
        ensures any_moment { self.old.closed ≡ false → ForSome (D.seen disk.old) (λ files.
            LeavesOnly D.moment D.left_since disk.old disk.new (IsBeforeOrAfter files [])) }

        ensures closed { IsErrOf result AppendError.Closed ↔ (self.old.closed ≡ true) }
        ensures full { IsErrOf result AppendError.Full ↔ ((self.old.closed ≡ false) × (self.old.limit < size_with_run run.old (length payload.now))) }
        ensures fits { OnOk result (size_with_run run.old (length payload.now) ≤ self.old.limit) }
        ensures disk { IsErrOf result AppendError.Disk → Rose (D.faults disk.old) (D.faults disk.new) }
        ensures disk_closes { IsErrOf result AppendError.Disk → self.new ≡ record self.old { closed = true } }
        ensures unchanged { IsErrOf result AppendError.Closed → (disk.new ≡ disk.old) × (self.new ≡ self.old) × (run.new ≡ run.old) }
        ensures unchanged_full { IsErrOf result AppendError.Full → (disk.new ≡ disk.old) × (self.new ≡ self.old) × (run.new ≡ run.old) }
        ensures faults { NeverFell (D.faults disk.old) (D.faults disk.new) }
    {
        if self.closed {
            return Err(AppendError::Closed);
        }
        let len = payload.len() as u64;
        if !self.has_room_in_run(run, len) {
            return Err(AppendError::Full);
        }
        let next = run.next;
        match lay(disk, self.file, self.gate, next, payload) {
            Ok(()) => {
                run.next = next + RECORD_HEAD + len;
                Ok(next)
            }
            Err(DiskFault) => {
                self.closed = true;
                Err(AppendError::Disk)
            }
        }
    }

    /// Ends a run: its records count, all at once. It makes four calls of the disk, and none for a run that took
    /// none. It is never `Full`; after `Disk` the log is closed, and its disk has all of the records or none.
    pub fn end_run<D: Disk>(&mut self, disk: &mut D, run: Run) -> Result<(), AppendError>
        requires running { Running D.seen D.may_leave disk.old self.old run }
        requires order { self.old.closed ≡ false → self.old.gate ≤ run.next }
        ensures added { (records : List (List ℕ)) → HasTaken (D.seen disk.old) self.old run records →
            OnOk result (told (D.seen disk.new) ≡ with_payloads records (told (D.seen disk.old))) }
        ensures place { OnOk result (self.new ≡ record self.old { gate = run.next }) }
        ensures stands { Stands D.seen D.may_leave disk.new self.new }
        ensures others { OnOk result (OthersStay self.old.file (D.seen disk.old) (D.seen disk.new)) }

        // A crash at any moment of the call leaves the payloads from before the run, or these and all of its records.
        ensures any_moment { self.old.closed ≡ false → ForSome (D.seen disk.old) (λ files. (records : List (List ℕ)) →
            Laying files self.old.file self.old.gate run.next self.old.is_old records →
            LeavesOnly D.moment D.left_since disk.old disk.new (IsBeforeOrAfter files records)) }

        ensures closed { IsErrOf result AppendError.Closed ↔ (self.old.closed ≡ true) }
        ensures never_full { result ≢ Err AppendError.Full }
        ensures disk { IsErrOf result AppendError.Disk → Rose (D.faults disk.old) (D.faults disk.new) }
        ensures disk_closes { IsErrOf result AppendError.Disk → self.new ≡ record self.old { closed = true } }
        ensures unchanged { IsErrOf result AppendError.Closed → (disk.new ≡ disk.old) × (self.new ≡ self.old) }
        ensures faults { NeverFell (D.faults disk.old) (D.faults disk.new) }
    {
        if self.closed {
            return Err(AppendError::Closed);
        }
        let next = run.next;
        if next == self.gate {
            return Ok(());
        }
        match finish(disk, self.file, self.gate, next) {
            Ok(()) => {
                self.gate = next;
                Ok(())
            }
            Err(DiskFault) => {
                self.closed = true;
                Err(AppendError::Disk)
            }
        }
    }

    /// Gives a run up: none of its records counts, and what was written of them is not read. It makes one call of the disk,
    /// and none for a run that took none. After `Disk` the log is closed.
    pub fn drop_run<D: Disk>(&mut self, disk: &mut D, run: Run) -> Result<(), AppendError>
        requires running { Running D.seen D.may_leave disk.old self.old run }
        ensures same { OnOk result (D.seen disk.new ≡ D.seen disk.old) }
        ensures kept { OnOk result (self.new ≡ self.old) }
        ensures stands { Stands D.seen D.may_leave disk.new self.new }
        ensures any_moment { self.old.closed ≡ false → ForSome (D.seen disk.old) (λ files.
            LeavesOnly D.moment D.left_since disk.old disk.new (IsBeforeOrAfter files [])) }
        ensures closed { IsErrOf result AppendError.Closed ↔ (self.old.closed ≡ true) }
        ensures never_full { result ≢ Err AppendError.Full }
        ensures disk { IsErrOf result AppendError.Disk → Rose (D.faults disk.old) (D.faults disk.new) }
        ensures disk_closes { IsErrOf result AppendError.Disk → self.new ≡ record self.old { closed = true } }
        ensures unchanged { IsErrOf result AppendError.Closed → (disk.new ≡ disk.old) × (self.new ≡ self.old) }
        ensures faults { NeverFell (D.faults disk.old) (D.faults disk.new) }
    {
        if self.closed {
            return Err(AppendError::Closed);
        }
        if run.next == self.gate {
            return Ok(());
        }
        match disk.sync(self.file) {
            Ok(()) => Ok(()),
            Err(DiskFault) => {
                self.closed = true;
                Err(AppendError::Disk)
            }
        }
    }
}

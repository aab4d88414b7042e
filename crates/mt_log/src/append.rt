//! Adding a payload: it counts once its gate is open on the disk.
ghost use Rattle.std.specs.Prelude.{◌≡◌, Bool, ◌↔◌, ◌<◌, ◌+◌, ◌^◌, ◌++◌, ◌∷◌, [], true, false, length, is_some, IfOk, OnOk, IsErrOf};
ghost use Rattle.std.specs.Option.{ForSome};
ghost use Rattle.mt_base.specs.Counts.{HasCause, Rose, NeverFell};
ghost use Rattle.mt_disk.specs.CrashModel.{Only, LeavesOnly};
ghost use Rattle.mt_log.specs.LogImage.{IsLogOf, IsBeforeOrAfter, payloads_of};
ghost use Rattle.mt_log.specs.Stage.{HasLogAt};
ghost use Rattle.mt_log.specs.Places.{end_of};
ghost use Rattle.mt_log.specs.LogState.{OthersStay, Tells, Stands, HasRoom, LacksRoom, next_place, with_record, told, with_payload};

use crate::log::{Log, RECORD_HEAD};
use crate::publish::publish;
use crate::stage::stage;
use mt_disk::{Disk, DiskFault, FileNo};

/// Why a payload isn't added.
#[derive(Clone, Copy, Debug, PartialEq, Eq)]
pub enum AppendError {
    /// An earlier call failed on the disk, and the log takes no more. Nothing was written.
    Closed,
    /// The log would get longer than its limit. Nothing was written.
    Full,
    /// The disk has failed. The log is closed, and its disk has the payload or not.
    Disk,
}

// Adds a record: it is whole on the disk before its gate is opened.
fn add_record<D: Disk>(
    disk: &mut D,
    file: FileNo,
    gate: u64,
    payload: &[u8],
) -> Result<(), DiskFault>
    requires stands { ForSome (D.seen disk.old) (λ files. Only files (D.may_leave disk.old) × HasLogAt files file gate) }
    requires payload { length payload.now < 2 ^ 32 }
    requires fits { next_place gate (length payload.now) + 1 < 2 ^ 64 }
    ensures added { OnOk result (ForSome (D.seen disk.old) (λ files. (old : Bool) → IsLogOf files file gate old →
        Tells D.seen D.may_leave disk.new file (next_place gate (length payload.now)) old (payloads_of files ++ payload.now ∷ []))) }
    ensures others { OnOk result (OthersStay file (D.seen disk.old) (D.seen disk.new)) }
    ensures told { OnOk result (is_some (D.seen disk.new) ≡ is_some (D.seen disk.old)) }
    ensures any_moment { ForSome (D.seen disk.old) (λ files.
        LeavesOnly D.moment D.left_since disk.old disk.new (IsBeforeOrAfter files (payload.now ∷ []))) }
    ensures cause { HasCause (D.faults disk.old) (D.faults disk.new) result }
{
    stage(disk, file, gate, payload)?;
    publish(disk, file, gate)
}

impl Log {
    /// Adds a payload of fewer than 2 ^ 32 bytes to a log of this version, and gives its record's place. It makes six calls of
    /// the disk and takes no memory. After `Disk` the log is closed, and is to be opened again.
    pub fn append<D: Disk>(&mut self, disk: &mut D, payload: &[u8]) -> Result<u64, AppendError>
        requires stands { Stands D.seen D.may_leave disk.old self.old }
        requires version { self.old.closed ≡ false → self.old.is_old ≡ false }
        requires payload { length payload.now < 2 ^ 32 }

        // The list of payloads gets this one, and nothing else changes it.
        ensures added { OnOk result (told (D.seen disk.new) ≡ with_payload payload.now (told (D.seen disk.old))) }
        ensures place { IfOk result (λ place. (place ≡ self.old.gate) × (self.new ≡ with_record self.old (length payload.now))) }
        // The payload stands behind those from before.
        ensures at_end { IfOk result (λ place. ForSome (told (D.seen disk.old)) (λ ps. place ≡ end_of ps)) }
        ensures stands { Stands D.seen D.may_leave disk.new self.new }
        // The other files stay.
        ensures others { OnOk result (OthersStay self.old.file (D.seen disk.old) (D.seen disk.new)) }

        // A crash at any moment of the call leaves the payloads from before it, with the new one or without.
        ensures any_moment { self.old.closed ≡ false → ForSome (D.seen disk.old) (λ files.
            LeavesOnly D.moment D.left_since disk.old disk.new (IsBeforeOrAfter files (payload.now ∷ []))) }

        ensures closed { IsErrOf result AppendError.Closed ↔ (self.old.closed ≡ true) }
        ensures full { IsErrOf result AppendError.Full ↔ ((self.old.closed ≡ false) × LacksRoom self.old (length payload.now)) }
        ensures fits { OnOk result (HasRoom self.old (length payload.now)) }
        ensures disk { IsErrOf result AppendError.Disk → Rose (D.faults disk.old) (D.faults disk.new) }
        ensures disk_closes { IsErrOf result AppendError.Disk → self.new ≡ record self.old { closed = true } }
        ensures unchanged { IsErrOf result AppendError.Closed → (disk.new ≡ disk.old) × (self.new ≡ self.old) }
        ensures unchanged_full { IsErrOf result AppendError.Full → (disk.new ≡ disk.old) × (self.new ≡ self.old) }
        ensures faults { NeverFell (D.faults disk.old) (D.faults disk.new) }
    {
        if self.closed {
            return Err(AppendError::Closed);
        }
        let len = payload.len() as u64;
        if !self.has_room(len) {
            return Err(AppendError::Full);
        }
        let gate = self.gate;
        match add_record(disk, self.file, gate, payload) {
            Ok(()) => {
                self.gate = gate + RECORD_HEAD + len;
                Ok(gate)
            }
            Err(DiskFault) => {
                self.closed = true;
                Err(AppendError::Disk)
            }
        }
    }
}

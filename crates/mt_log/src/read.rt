//! Reading payloads by their places.
ghost use Rattle.std.specs.Prelude.{◌≡◌, ◌≢◌, ◌<◌, ◌≤◌, ◌+◌, ℕ, List, [], ◌∷◌, false, Err, length, slice_range, IfOk, IfSome, IfNone, OnOk, OnErr, IsErrOf};
ghost use Rattle.std.specs.Option.{ForSome};
ghost use Rattle.mt_base.specs.Counts.{HasCause, Rose, NeverFell};
ghost use Rattle.mt_disk.specs.CrashModel.{OnlyRead};
ghost use Rattle.mt_log.specs.LogState.{IsThere, next_place, told};
ghost use Rattle.mt_log.specs.Places.{IsPlace, from_place, payload_at};
ghost use Rattle.mt_log.specs.declared.read.ReadFault.TheVariants.{Disk, Memory};

use crate::log::{Log, RECORD_HEAD};
use crate::scan::length_of;
use mt_disk::{Disk, DiskFault};
use std::alloc::AllocError;

/// Why a payload isn't read. Nothing was written.
#[derive(Clone, Copy, Debug, PartialEq, Eq)]
pub enum ReadFault {
    /// The disk has failed.
    Disk,
    /// Out of memory.
    Memory,
}

impl From<DiskFault> for ReadFault {
    ghost from_gives = { λ _ e. e ≡ Disk };

    fn from(_: DiskFault) -> Self {
        ReadFault::Disk
    }
}

impl From<AllocError> for ReadFault {
    ghost from_gives = { λ _ e. e ≡ Memory };

    fn from(_: AllocError) -> Self {
        ReadFault::Memory
    }
}

impl Log {
    /// The place of the record behind one at this place with so many bytes of payload, or of the closed gate behind it.
    /// `None` where that is past the closed gate: no such record stands there.
    pub fn next(&self, place: u64, payload: u64) -> Option<u64>
        ensures place { IfSome result (λ next. (next ≡ next_place place payload) × (next ≤ self.now.gate)) }
        ensures past { IfNone result (self.now.gate < next_place place payload) }
        ensures next { IfSome result (λ next. (ps more : List (List ℕ)) (p : List ℕ) → from_place place ps ≡ p ∷ more → length p ≡ payload → from_place next ps ≡ more) }
    {
        if place > self.gate {
            return None;
        }
        let left = self.gate - place;
        if left < RECORD_HEAD || left - RECORD_HEAD < payload {
            return None;
        }
        Some(place + RECORD_HEAD + payload)
    }

    /// The length of the payload at a place, in bytes. It takes no memory.
    pub fn payload_len<D: Disk>(&self, disk: &mut D, place: u64) -> Result<u32, DiskFault>
        requires there { IsThere D.seen disk.old self.now }
        requires is_open { self.now.closed ≡ false }
        requires place { ForSome (told (D.seen disk.old)) (λ ps. IsPlace place ps) }
        ensures len { IfOk result (λ n. ForSome (told (D.seen disk.old)) (λ ps. n ≡ length (payload_at place ps))) }
        ensures read { OnlyRead D.seen D.may_leave D.moment D.left_since disk.old disk.new }
        ensures stays { D.stays disk.old disk.new }
        ensures cause { HasCause (D.faults disk.old) (D.faults disk.new) result }
    {
        let mut len = [0; 4];
        disk.read(self.file, place.saturating_add(1), &mut len)?;
        Ok(length_of(&len))
    }

    /// Fills the piece with the bytes of the payload at a place, from the byte `from` on. It takes no memory.
    pub fn read_part<D: Disk>(
        &self,
        disk: &mut D,
        place: u64,
        from: u32,
        into: &mut [u8],
    ) -> Result<(), ReadFault>
        requires there { IsThere D.seen disk.old self.now }
        requires is_open { self.now.closed ≡ false }
        requires part { ForSome (told (D.seen disk.old)) (λ ps. from + length into.old ≤ length (payload_at place ps)) }
        ensures part { OnOk result (ForSome (told (D.seen disk.old)) (λ ps. into.new ≡ slice_range (payload_at place ps) from (from + length into.old))) }
        ensures read { OnlyRead D.seen D.may_leave D.moment D.left_since disk.old disk.new }
        ensures stays { D.stays disk.old disk.new }
        ensures memory { result ≢ Err ReadFault.Memory }
        ensures cause { HasCause (D.faults disk.old) (D.faults disk.new) result }
    {
        if into.is_empty() {
            return Ok(());
        }
        let at = place
            .saturating_add(RECORD_HEAD)
            .saturating_add(from as u64);
        match disk.read(self.file, at, into) {
            Ok(()) => Ok(()),
            Err(DiskFault) => Err(ReadFault::Disk),
        }
    }

    /// Makes the list hold the payload at a place. After a fault it is empty.
    pub fn read<D: Disk>(
        &self,
        disk: &mut D,
        place: u64,
        into: &mut Vec<u8>,
    ) -> Result<(), ReadFault>
        requires there { IsThere D.seen disk.old self.now }
        requires is_open { self.now.closed ≡ false }
        requires place { ForSome (told (D.seen disk.old)) (λ ps. IsPlace place ps) }
        ensures payload { OnOk result (ForSome (told (D.seen disk.old)) (λ ps. into.new.items ≡ payload_at place ps)) }
        ensures failed { OnErr result (into.new.items ≡ []) }
        ensures read { OnlyRead D.seen D.may_leave D.moment D.left_since disk.old disk.new }
        ensures stays { D.stays disk.old disk.new }
        ensures disk { IsErrOf result ReadFault.Disk → Rose (D.faults disk.old) (D.faults disk.new) }
        ensures faults { NeverFell (D.faults disk.old) (D.faults disk.new) }
    {
        into.clear();
        let len = self.payload_len(disk, place)?;
        into.resize(len as usize, 0)?;
        match self.read_part(disk, place, 0, into.as_mut_slice()) {
            Ok(()) => Ok(()),
            Err(fault) => {
                into.clear();
                Err(fault)
            }
        }
    }
}

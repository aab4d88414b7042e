//! The disk that reads ahead: what it reads, it reads in pieces of a window, and all else goes through.
ghost use Rattle.std.specs.Prelude.{◌≡◌, ◌≢◌, ◌⊎◌, ◌↔◌, ◌≤◌, ◌+◌, ◌-◌, IsTrue, false, min, length, take, drop, slice_range, OnOk};
ghost use Rattle.std.specs.Option.{ForSome};
ghost use Rattle.mt_base.specs.Counts.{HasCause};
ghost use Rattle.mt_disk.specs.Files.{contents};
ghost use Rattle.mt_disk.specs.CrashModel.{OnlyRead};

use mt_disk::{Disk, DiskFault, FileNo};

/// What is known of a file: it has `end` bytes, and `held` of them, from a place on, are in memory.
#[derive(Clone, Copy)]
struct Window {
    end: u64,
    at: u64,
    held: usize,
}

/// Nothing is known.
const NONE: Window = Window {
    end: 0,
    at: 0,
    held: 0,
};

/// A disk over one that is lent. Of one of its files it keeps the bytes that stand behind a small read in memory, and gives them to the
/// reads that follow; it makes no other call of the disk for these, until this file is written or cut, or another one with a fault. It is
/// the lent disk in all else.
#[derive(Drop)]
pub struct ReadAhead<'a, D: Disk> {
    disk: &'a mut D,
    file: FileNo,
    window: Window,
    piece: &'a mut [u8],
    ghost within: { window.held ≤ length piece.now },
    ghost inside: { window.at + window.held ≤ window.end },
    // Where the disk tells what it holds, the file has so many bytes,
    ghost known: { ForSome (D.seen disk.now) (λ files. window.end ≤ length (contents files file)) },
    // and those that are held are the file's.
    ghost same: { ForSome (D.seen disk.now) (λ files. take window.held piece.now ≡ take window.held (drop window.at (contents files file))) },
}

// Reads the bytes of a file from a place on to the front of a piece.
fn read_front<D: Disk>(
    disk: &mut D,
    file: FileNo,
    at: u64,
    count: usize,
    piece: &mut [u8],
) -> Result<(), DiskFault>
    requires room { count ≤ length piece.old }
    requires fits { ForSome (D.seen disk.old) (λ files. at + count ≤ length (contents files file)) }
    ensures bytes { OnOk result (ForSome (D.seen disk.old) (λ files. take count piece.new ≡ take count (drop at (contents files file)))) }
    ensures read { OnlyRead D.seen D.may_leave D.moment D.left_since disk.old disk.new }
    ensures cause { HasCause (D.faults disk.old) (D.faults disk.new) result }
    ensures stays { D.stays disk.old disk.new }
{
    disk.read(file, at, &mut piece[..count])?;
    Ok(())
}

// Copies a part of a piece.
fn copy_part(piece: &[u8], from: usize, into: &mut [u8])
    requires { from + length into.old ≤ length piece.now }
    ensures { into.new ≡ take (length into.old) (drop from piece.now) }
{
    into.copy_from_slice(&piece[from..from + into.len()]);
}

impl<'a, D: Disk> ReadAhead<'a, D> {
    /// Reads ahead in a file of a disk, of which the first `end` bytes are there, as far as a piece of memory takes. It makes no call of
    /// the disk, and takes no memory. The disk that is lent stays the same one over each call (`stays`).
    pub fn new(disk: &'a mut D, file: FileNo, end: u64, piece: &'a mut [u8]) -> ReadAhead<'a, D>
        requires { ForSome (D.seen disk.old) (λ files. end ≤ length (contents files file)) }
        ensures { result.disk ≡ disk.entry }
    {
        ReadAhead {
            disk,
            file,
            window: Window {
                end,
                at: 0,
                held: 0,
            },
            piece,
        }
    }

    // Whether a read goes through as it is: of another file, of many bytes, or past those that are known to be there.
    fn passes(&self, file: FileNo, at: u64, count: usize) -> bool
        ensures { result ≡ false → (file ≡ self.now.file) × (count ≤ length self.now.piece.now) × (at + count ≤ self.now.window.end) }
    {
        file != self.file
            || count >= self.piece.len()
            || at > self.window.end
            || self.window.end - at < count as u64
    }

    // Whether so many bytes from a place on are held.
    fn holds(&self, at: u64, count: usize) -> bool
        ensures { IsTrue result ↔ ((self.now.window.at ≤ at) × (at + count ≤ self.now.window.at + self.now.window.held)) }
    {
        let from = self.window.at;
        let held = self.window.held as u64;
        at >= from && at - from <= held && held - (at - from) >= count as u64
    }

    // What is known still of the file once one was written or cut.
    fn kept_over(&self, file: FileNo) -> Window
        ensures { ((file ≡ self.now.file) × (result ≡ record { end = 0; at = 0; held = 0 })) ⊎ ((file ≢ self.now.file) × (result ≡ self.now.window)) }
    {
        if file == self.file { NONE } else { self.window }
    }

    // Reads the window anew from a place on, by one call of the disk. After a fault it holds nothing.
    fn refill(&mut self, at: u64) -> Result<(), DiskFault>
        requires { at ≤ self.old.window.end }
        ensures filled { OnOk result ((self.new.window.at ≡ at) × (self.new.window.held ≡ min (self.old.window.end - at) (length self.old.piece.now))) }
        ensures file { self.new.file ≡ self.old.file }
        ensures same_reference { self.new.disk.ghost_name ≡ self.old.disk.ghost_name }
        ensures read { OnlyRead D.seen D.may_leave D.moment D.left_since self.old.disk.now self.new.disk.now }
        ensures cause { HasCause (D.faults self.old.disk.now) (D.faults self.new.disk.now) result }
        ensures stays { D.stays self.old.disk.now self.new.disk.now }
    {
        let count = (self.window.end - at).min(self.piece.len() as u64) as usize;
        self.window.held = 0;
        read_front(self.disk, self.file, at, count, self.piece)?;
        self.window.at = at;
        self.window.held = count;
        Ok(())
    }

    // Has so many bytes from a place on in the window. Where they are in it, no call is made.
    fn bring(&mut self, at: u64, count: usize) -> Result<(), DiskFault>
        requires few { count ≤ length self.old.piece.now }
        requires there { at + count ≤ self.old.window.end }
        ensures held { OnOk result ((self.new.window.at ≤ at) × (at + count ≤ self.new.window.at + self.new.window.held)) }
        ensures idle { self.old.window.at ≤ at → at + count ≤ self.old.window.at + self.old.window.held → self.new ≡ self.old }
        ensures file { self.new.file ≡ self.old.file }
        ensures same_reference { self.new.disk.ghost_name ≡ self.old.disk.ghost_name }
        ensures read { OnlyRead D.seen D.may_leave D.moment D.left_since self.old.disk.now self.new.disk.now }
        ensures cause { HasCause (D.faults self.old.disk.now) (D.faults self.new.disk.now) result }
        ensures stays { D.stays self.old.disk.now self.new.disk.now }
    {
        if self.holds(at, count) {
            return Ok(());
        }
        self.refill(at)?;
        Ok(())
    }

    // Fills the piece from the window. It makes no call of the disk.
    fn copy_held(&self, at: u64, into: &mut [u8])
        requires from { self.now.window.at ≤ at }
        requires within { at + length into.old ≤ self.now.window.at + self.now.window.held }
        ensures { ForSome (D.seen self.now.disk.now) (λ files. into.new ≡ slice_range (contents files self.now.file) at (at + length into.old)) }
    {
        let from = (at - self.window.at) as usize;
        copy_part(self.piece, from, into);
    }
}

impl<D: Disk> Disk for ReadAhead<'_, D> {
    ghost use Rattle.std.specs.Prelude.{◌≡◌, refl};
    ghost use Rattle.std.proofs.Common.{◌∙◌};

    // All of it is that of the disk that is lent.
    ghost seen = { λ r. D.seen r.disk.now };

    ghost may_leave = { λ r c. D.may_leave r.disk.now c };

    ghost moment = { λ r. D.moment r.disk.now };

    ghost left_since = { λ r t c. D.left_since r.disk.now t c };

    ghost faults = { λ r. D.faults r.disk.now };

    // The same disk is lent, and stays.
    ghost stays = { λ a b. (b.disk.ghost_name ≡ a.disk.ghost_name) × D.stays a.disk.now b.disk.now };

    fn len(&mut self, file: FileNo) -> Result<u64, DiskFault> {
        self.disk.len(file)
    }

    fn read(&mut self, file: FileNo, at: u64, into: &mut [u8]) -> Result<(), DiskFault> {
        if self.passes(file, at, into.len()) {
            return self.disk.read(file, at, into);
        }
        self.bring(at, into.len())?;
        self.copy_held(at, into);
        Ok(())
    }

    fn write_at(&mut self, file: FileNo, at: u64, piece: &[u8]) -> Result<(), DiskFault> {
        let kept = self.kept_over(file);
        self.window = NONE;
        self.disk.write_at(file, at, piece)?;
        self.window = kept;
        Ok(())
    }

    fn cut(&mut self, file: FileNo, to: u64) -> Result<(), DiskFault> {
        let kept = self.kept_over(file);
        self.window = NONE;
        self.disk.cut(file, to)?;
        self.window = kept;
        Ok(())
    }

    fn sync(&mut self, file: FileNo) -> Result<(), DiskFault> {
        self.disk.sync(file)
    }

    ghost counts_now = { λ r t c le left. D.counts_now r.disk.now t c le left };

    ghost only_now = { λ r c left. D.only_now r.disk.now c left };

    ghost seen_is_left = { λ r files is. D.seen_is_left r.disk.now files is };

    ghost same = { λ r. (refl, D.same r.disk.now) };

    ghost joined = { λ a b c h k. (k.0 ∙ h.0, D.joined a.disk.now b.disk.now c.disk.now h.1 k.1) };
}

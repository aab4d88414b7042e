//! The bytes of a file in order, read from the disk in large pieces, each byte once.
ghost use Rattle.std.specs.Prelude.{◌≡◌, ◌<◌, ◌≤◌, ◌+◌, ◌-◌, ◌^◌, ◌++◌, [], length, take, drop, min, slice_range, IfOk, OnOk};
ghost use Rattle.std.specs.Option.{ForSome};
ghost use Rattle.mt_base.specs.Counts.{HasCause};
ghost use Rattle.mt_disk.specs.Files.{contents};
ghost use Rattle.mt_disk.specs.CrashModel.{OnlyRead};
ghost use Rattle.md5.specs.Md5.{md5};
ghost use Rattle.mt_log.specs.Scan.{IsWindow, rest_at};

use md5::{Digest, Md5};
use mt_base::zeros;
use mt_disk::{Disk, DiskFault, FileNo};
use std::alloc::{AllocError, Global};
use std::marker::Model;

/// The bytes that are read at once.
const PIECE: usize = 262_144;

/// A part of a file in memory, which moves from its front to its end.
#[derive(Drop)]
pub(crate) struct Window {
    file: FileNo,
    end: u64,
    at: u64,
    piece: Vec<u8>,
    from: usize,
    to: usize,
}

impl Model for Window {
    ghost use Rattle.std.specs.Prelude.{◌≡◌, ◌≤◌, ◌+◌, ◌-◌, length, slice_range};
    ghost use Rattle.mt_log.specs.Scan.{WindowState};

    ghost Value = { WindowState };

    ghost view = { λ w. record { file = w.file; end = w.end; at = w.at; held = slice_range w.piece.items w.from w.to } };

    // What is held lies within the piece, and within the file.
    ghost invariant = { λ w. (w.from ≤ w.to) × (w.to ≤ length w.piece.items) × (length w.piece.items ≡ 262144) × (w.at + (w.to - w.from) ≤ w.end) };
}

// Moves a part of a list to its front.
fn move_front(bytes: &mut [u8], from: usize, to: usize)
    requires order { from ≤ to }
    requires within { to ≤ length bytes.old }
    ensures { take (to - from) bytes.new ≡ slice_range bytes.old from to }
{
    bytes.copy_within(from..to, 0);
}

// Reads the bytes of a file from a place on, behind what is held in front.
fn read_behind<D: Disk>(
    disk: &mut D,
    file: FileNo,
    at: u64,
    bytes: &mut [u8],
    held: usize,
    more: usize,
) -> Result<(), DiskFault>
    requires room { held + more ≤ length bytes.old }
    requires fits { ForSome (D.seen disk.old) (λ files. at + more ≤ length (contents files file)) }
    ensures bytes { OnOk result (ForSome (D.seen disk.old) (λ files.
        take (held + more) bytes.new ≡ take held bytes.old ++ take more (drop at (contents files file)))) }
    ensures read { OnlyRead D.seen D.may_leave D.moment D.left_since disk.old disk.new }
    ensures cause { HasCause (D.faults disk.old) (D.faults disk.new) result }
{
    disk.read(file, at, &mut bytes[held..held + more])?;
    Ok(())
}

impl Window {
    /// The front of a file of so many bytes. Nothing is read yet.
    pub(crate) fn new(alloc: Global, file: FileNo, end: u64) -> Result<Self, AllocError>
        ensures { IfOk result (λ w. w ≡ record { file = file; end = end; at = 0; held = [] }) }
    {
        Ok(Window {
            file,
            end,
            at: 0,
            piece: zeros(alloc, PIECE)?,
            from: 0,
            to: 0,
        })
    }

    /// The place in the file from which on nothing was taken.
    pub(crate) fn at(&self) -> u64
        ensures { result ≡ self.now.at }
    {
        self.at
    }

    /// How many bytes the file has from there on.
    pub(crate) fn left(&self) -> u64
        ensures { result + self.now.at ≡ self.now.end }
    {
        self.end - self.at
    }

    // How many bytes are in memory.
    fn ready(&self) -> usize
        ensures { result ≡ length self.now.held }
    {
        self.to - self.from
    }

    // Reads on, as much as the piece takes.
    fn refill<D: Disk>(&mut self, disk: &mut D) -> Result<(), DiskFault>
        requires window { ForSome (D.seen disk.old) (λ files. IsWindow files self.old) }
        ensures filled { OnOk result (length self.new.held ≡ min 262144 (self.old.end - self.old.at)) }
        ensures same { self.new ≡ record self.old { held = self.new.held } }
        ensures window { OnOk result (ForSome (D.seen disk.new) (λ files. IsWindow files self.new)) }
        ensures read { OnlyRead D.seen D.may_leave D.moment D.left_since disk.old disk.new }
        ensures cause { HasCause (D.faults disk.old) (D.faults disk.new) result }
    {
        let held = self.to - self.from;
        move_front(self.piece.as_mut_slice(), self.from, self.to);
        self.from = 0;
        self.to = held;
        let left = self.end - self.at - held as u64;
        let more = left.min((PIECE - held) as u64) as usize;
        let place = self.at + held as u64;
        read_behind(
            disk,
            self.file,
            place,
            self.piece.as_mut_slice(),
            held,
            more,
        )?;
        self.to = held + more;
        Ok(())
    }

    /// Has at least so many bytes in memory.
    pub(crate) fn fill<D: Disk>(&mut self, disk: &mut D, wanted: usize) -> Result<(), DiskFault>
        requires window { ForSome (D.seen disk.old) (λ files. IsWindow files self.old) }
        requires small { wanted ≤ 262144 }
        requires fits { self.old.at + wanted ≤ self.old.end }
        ensures filled { OnOk result (wanted ≤ length self.new.held) }
        ensures same { self.new ≡ record self.old { held = self.new.held } }
        ensures window { OnOk result (ForSome (D.seen disk.new) (λ files. IsWindow files self.new)) }
        ensures read { OnlyRead D.seen D.may_leave D.moment D.left_since disk.old disk.new }
        ensures cause { HasCause (D.faults disk.old) (D.faults disk.new) result }
    {
        if self.ready() < wanted {
            self.refill(disk)?;
        }
        Ok(())
    }

    /// The first bytes that are in memory.
    pub(crate) fn front(&self, count: usize) -> &[u8]
        requires { count ≤ length self.now.held }
        ensures { result.now ≡ take count self.now.held }
    {
        &self.piece[self.from..self.from + count]
    }

    /// Goes over bytes that are in memory.
    pub(crate) fn skip(&mut self, count: usize)
        requires { count ≤ length self.old.held }
        ensures { self.new ≡ record self.old { at = self.old.at + count; held = drop count self.old.held } }
    {
        self.from += count;
        self.at += count as u64;
    }

    /// The MD5 of so many bytes, over which it goes.
    pub(crate) fn digest<D: Disk>(
        &mut self,
        disk: &mut D,
        count: u64,
    ) -> Result<[u8; 16], DiskFault>
        requires window { ForSome (D.seen disk.old) (λ files. IsWindow files self.old) }
        requires fits { self.old.at + count ≤ self.old.end }
        ensures sum { IfOk result (λ sum. ForSome (D.seen disk.old) (λ files. sum ≡ md5 (take count (rest_at files self.old)))) }
        ensures same { OnOk result (self.new ≡ record self.old { at = self.old.at + count; held = self.new.held }) }
        ensures window { OnOk result (ForSome (D.seen disk.new) (λ files. IsWindow files self.new)) }
        ensures read { OnlyRead D.seen D.may_leave D.moment D.left_since disk.old disk.new }
        ensures cause { HasCause (D.faults disk.old) (D.faults disk.new) result }
    {
        let mut hasher = Md5::new();
        let mut left = count;
        while left > 0 {
            self.fill(disk, 1)?;
            let part = left.min(self.ready() as u64) as usize;
            hasher.update(self.front(part));
            self.skip(part);
            left -= part as u64;
        }
        Ok(hasher.finalize())
    }
}

//! Reading a part of a stored body.
ghost use Rattle.std.specs.Prelude.{◌≡◌, ◌<◌, ◌≤◌, ◌+◌, true, false, length, take, drop, IfOk, OnOk};
ghost use Rattle.std.specs.Option.{ForSome};
ghost use Rattle.mt_base.specs.Counts.{HasCause};
ghost use Rattle.mt_disk.specs.CrashModel.{OnlyRead};
ghost use Rattle.mt_log.specs.LogState.{IsThere, told};
ghost use Rattle.mt_body.specs.Stored.{bytes_of, is_stored};

use mt_disk::{Disk, DiskFault};
use mt_log::{Log, ReadFault};
use mt_types::{Body, LARGEST_PIECE};

/// The bytes of a full piece.
const PIECE: u64 = LARGEST_PIECE as u64;

/// The bytes that a full piece takes in the log: its record's head, its mark, and its own.
const RECORD: u64 = 21 + 1 + PIECE;

/// Fills a first part of the slice, at least one byte, with the body's bytes from a place on: up to the end of a piece at most.
pub(crate) fn read_some<D: Disk>(
    log: &Log,
    disk: &mut D,
    body: &Body,
    at: u64,
    into: &mut [u8],
) -> Result<usize, DiskFault>
    requires there { IsThere D.seen disk.old log.now }
    requires is_open { log.now.closed ≡ false }
    requires stored { ForSome (told (D.seen disk.old)) (λ ps. is_stored ps body.now ≡ true) }
    requires within { at + length into.old ≤ body.now.len }
    requires room { 0 < length into.old }
    ensures count { IfOk result (λ n. (0 < n) × (n ≤ length into.new)) }
    ensures bytes { IfOk result (λ n. ForSome (told (D.seen disk.old)) (λ ps. take n into.new ≡ take n (drop at (bytes_of ps body.now)))) }
    ensures read { OnlyRead D.seen D.may_leave D.moment D.left_since disk.old disk.new }
    ensures stays { D.stays disk.old disk.new }
    ensures cause { HasCause (D.faults disk.old) (D.faults disk.new) result }
{
    let offset = at % PIECE;
    let count = (into.len() as u64).min(PIECE - offset) as usize;
    // no record stands past the log's end, so nothing is lost at the end of the numbers
    let place = body
        .first
        .saturating_add((at / PIECE).saturating_mul(RECORD))
        .min(log.len());
    match log.read_part(disk, place, 1 + offset as u32, &mut into[..count]) {
        Ok(()) => Ok(count),
        Err(ReadFault::Disk | ReadFault::Memory) => Err(DiskFault),
    }
}

/// Fills the slice with the body's bytes from the byte `at` on. It takes no memory.
pub fn read_body<D: Disk>(
    log: &Log,
    disk: &mut D,
    body: &Body,
    at: u64,
    into: &mut [u8],
) -> Result<(), DiskFault>
    requires there { IsThere D.seen disk.old log.now }
    requires is_open { log.now.closed ≡ false }
    requires stored { ForSome (told (D.seen disk.old)) (λ ps. is_stored ps body.now ≡ true) }
    requires within { at + length into.old ≤ body.now.len }
    ensures bytes { OnOk result (ForSome (told (D.seen disk.old)) (λ ps. into.new ≡ take (length into.old) (drop at (bytes_of ps body.now)))) }
    ensures read { OnlyRead D.seen D.may_leave D.moment D.left_since disk.old disk.new }
    ensures stays { D.stays disk.old disk.new }
    ensures cause { HasCause (D.faults disk.old) (D.faults disk.new) result }
{
    // it is below 2 ^ 64, and so is each place within the body
    let _size = body.size();
    let mut done = 0;
    while done < into.len() {
        let count = read_some(log, disk, body, at + done as u64, &mut into[done..])?;
        done += count;
    }
    Ok(())
}

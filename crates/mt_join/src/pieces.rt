//! Adding the bytes of stored parts to a run of records, as one body.
ghost use Rattle.std.specs.Prelude.{◌≡◌, ◌≢◌, ◌<◌, ◌≤◌, ◌-◌, ◌^◌, [], ℕ, List, true, false, length, min};
ghost use Rattle.std.specs.List.{All};
ghost use Rattle.std.specs.Option.{ForSome};
ghost use Rattle.md5.specs.Md5.{Holds, md5};
ghost use Rattle.mt_base.specs.Counts.{NeverFell, Rose};
ghost use Rattle.mt_body.specs.Stored.{is_stored, pieces_size};
ghost use Rattle.mt_disk.specs.CrashModel.{LeavesOnly};
ghost use Rattle.mt_join.specs.Joining.{Joins, WholeIs};
ghost use Rattle.mt_log.specs.LogImage.{IsBeforeOrAfter};
ghost use Rattle.mt_log.specs.LogState.{OthersStay, told};
ghost use Rattle.mt_log.specs.RunState.{Running};

use crate::fill::{Cursor, next_piece};
use md5::{Digest, Md5};
use mt_base::zeros;
use mt_disk::{Disk, DiskFault};
use mt_log::{AppendError, Log, Run};
use mt_types::{Body, LARGEST_PIECE, PartRow};
use std::alloc::{AllocError, Global};

/// What a piece adds to a log beside its bytes: its record's head and its mark.
const PIECE_HEAD: u64 = 21 + 1;

/// What became of a join.
#[derive(Debug, PartialEq, Eq, Drop)]
pub enum Joining {
    /// All bytes of the parts are in the run, and this names them.
    Joined(Body),
    /// A piece would have passed the log's limit. The pieces before it stay in the run.
    Full,
    /// The disk has failed, and the log is closed.
    Disk,
    /// Out of memory. Nothing was read or written.
    Memory,
}

/// How much a body of so many bytes adds to a log; 2^64 - 1 where that is not below 2^64.
pub fn pieces_size(len: u64) -> u64
    ensures { result ≡ min (2 ^ 64 - 1) (pieces_size len) }
{
    let full = len / LARGEST_PIECE as u64;
    let last = (len % LARGEST_PIECE as u64).min(1);
    len.saturating_add(PIECE_HEAD * (full + last))
}

// The body that all bytes are in the run as.
fn whole(first: u64, len: u64, sum: Md5) -> Joining
    ensures { WholeIs result first len sum }
{
    Joining::Joined(Body {
        first,
        len,
        md5: sum.finalize(),
    })
}

// The place of a body's first piece: that of the piece that was just added, where none was before it.
fn first_place(first: u64, total: u64, place: u64) -> u64
    ensures none { total ≡ 0 → result ≡ place }
    ensures some { 0 < total → result ≡ first }
{
    if total == 0 { place } else { first }
}

// Joins by a buffer that holds a piece and its mark.
fn join_pieces<D: Disk>(
    log: &mut Log,
    disk: &mut D,
    run: &mut Run,
    parts: &[PartRow<Body>],
    buffer: &mut [u8],
) -> Joining
    requires running { Running D.seen D.may_leave disk.old log.old run.old }
    requires order { log.old.closed ≡ false → log.old.gate ≤ run.old.next }
    requires is_open { log.old.closed ≡ false }
    requires stored { ForSome (told (D.seen disk.old)) (λ ps. All (λ p. is_stored ps p.body ≡ true) parts.now) }
    requires buffer { length buffer.old ≡ 65537 }
    ensures joins { Joins result parts.now (D.seen disk.old) (D.seen disk.new) log.old log.new run.old run.new }
    ensures any_moment { ForSome (D.seen disk.old) (λ files. LeavesOnly D.moment D.left_since disk.old disk.new (IsBeforeOrAfter files [])) }
    ensures same { result ≢ Joining.Disk → told (D.seen disk.new) ≡ told (D.seen disk.old) }
    ensures others { result ≢ Joining.Disk → OthersStay log.old.file (D.seen disk.old) (D.seen disk.new) }
    ensures running { Running D.seen D.may_leave disk.new log.new run.new }
    ensures order { log.new.closed ≡ false → log.new.gate ≤ run.new.next }
    ensures disk { result ≡ Joining.Disk → Rose (D.faults disk.old) (D.faults disk.new) }
    ensures memory { result ≢ Joining.Memory }
    ensures faults { NeverFell (D.faults disk.old) (D.faults disk.new) }
{
    let mut sum = Md5::new();
    let mut cursor = Cursor { next: 0, at: 0 };
    let mut first = 0;
    let mut total = 0;
    'pieces: loop {
        let filled = match next_piece(log, disk, parts, cursor, buffer, &mut sum) {
            Ok(filled) => filled,
            Err(DiskFault) => {
                log.close();
                return Joining::Disk;
            }
        };
        if filled.count == 0 {
            return whole(first, total, sum);
        }
        match log.add_to_run(disk, run, &buffer[..filled.count + 1]) {
            Ok(place) => {
                first = first_place(first, total, place);
                total += filled.count as u64;
            }
            Err(AppendError::Full) => return Joining::Full,
            Err(AppendError::Disk) => return Joining::Disk,
            // never, since the log is open
            Err(AppendError::Closed) => return Joining::Disk,
        }
        if filled.count < LARGEST_PIECE {
            return whole(first, total, sum);
        }
        cursor = filled.cursor;
    }
}

/// Adds the bytes of stored parts, one behind another, to a run as one body: in pieces of 65,536, the last of them shorter. It
/// digests them too. After `Full` the pieces that had room stay in the run. It takes one buffer of 65,537 bytes, makes two calls of
/// the disk a piece, and one more for each piece of a part that it reads bytes of. A part without bytes is passed over.
pub fn join<D: Disk>(
    alloc: Global,
    log: &mut Log,
    disk: &mut D,
    run: &mut Run,
    parts: &[PartRow<Body>],
) -> Joining
    requires running { Running D.seen D.may_leave disk.old log.old run.old }
    requires order { log.old.closed ≡ false → log.old.gate ≤ run.old.next }
    requires is_open { log.old.closed ≡ false }
    requires stored { ForSome (told (D.seen disk.old)) (λ ps. All (λ p. is_stored ps p.body ≡ true) parts.now) }
    ensures joins { Joins result parts.now (D.seen disk.old) (D.seen disk.new) log.old log.new run.old run.new }
    // Nothing counts yet: each image of each moment has the payloads of before.
    ensures any_moment { ForSome (D.seen disk.old) (λ files. LeavesOnly D.moment D.left_since disk.old disk.new (IsBeforeOrAfter files [])) }
    ensures same { result ≢ Joining.Disk → told (D.seen disk.new) ≡ told (D.seen disk.old) }
    ensures others { result ≢ Joining.Disk → OthersStay log.old.file (D.seen disk.old) (D.seen disk.new) }
    ensures running { Running D.seen D.may_leave disk.new log.new run.new }
    ensures order { log.new.closed ≡ false → log.new.gate ≤ run.new.next }
    ensures disk { result ≡ Joining.Disk → Rose (D.faults disk.old) (D.faults disk.new) }
    ensures memory { result ≡ Joining.Memory → (disk.new ≡ disk.old) × (run.new ≡ run.old) }
    ensures faults { NeverFell (D.faults disk.old) (D.faults disk.new) }
{
    match zeros(alloc, LARGEST_PIECE + 1) {
        Ok(mut buffer) => join_pieces(log, disk, run, parts, buffer.as_mut_slice()),
        Err(AllocError) => Joining::Memory,
    }
}

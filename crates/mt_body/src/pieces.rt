//! Storing a body from a source in a run of records.
ghost use Rattle.std.specs.Prelude.{◌≡◌, ◌≢◌, ◌<◌, ◌≤◌, ◌+◌, ◌∷◌, [], ℕ, List, true, false, length, IfOk};
ghost use Rattle.std.specs.Option.{ForSome};
ghost use Rattle.md5.specs.Md5.{Holds};
ghost use Rattle.mt_base.specs.Counts.{NeverFell, Rose};
ghost use Rattle.mt_disk.specs.CrashModel.{LeavesOnly};
ghost use Rattle.mt_log.specs.LogImage.{IsBeforeOrAfter};
ghost use Rattle.mt_log.specs.LogState.{OthersStay, told};
ghost use Rattle.mt_log.specs.RunState.{Running};
ghost use Rattle.mt_body.specs.Storing.{LackIs, LastIs, Stores};

use crate::fill::{End, next_piece};
use md5::{Digest, Md5};
use mt_base::zeros;
use mt_disk::Disk;
use mt_edge::Source;
use mt_log::{AppendError, Log, Run};
use mt_types::{Body, LARGEST_PIECE};
use std::alloc::{AllocError, Global};

/// What became of a body.
#[derive(Debug, PartialEq, Eq, Drop)]
pub enum Storing {
    /// All of it is in the run, and this names it.
    Stored(Body),
    /// A piece would have passed the log's limit. The pieces before it stay in the run, and the source goes on behind it.
    Full,
    /// The source has failed. What came before is in the run as far as it has room.
    SourceFault,
    /// The disk has failed, and the log is closed.
    Disk,
    /// Out of memory. Nothing was read or written.
    Memory,
}

// The answer where no more is read.
fn last(end: End, first: u64, len: u64, sum: &Md5) -> Storing
    ensures { LastIs end result first len sum.now }
{
    match end {
        End::Failed => Storing::SourceFault,
        End::Whole | End::Ended => match sum.clone() {
            Ok(sum) => Storing::Stored(Body {
                first,
                len,
                md5: sum.finalize(),
            }),
            Err(AllocError) => Storing::Memory,
        },
    }
}

// The answer where a piece has no room.
fn lacking(end: End) -> Storing
    ensures { result ≡ LackIs end }
{
    match end {
        End::Failed => Storing::SourceFault,
        End::Whole | End::Ended => Storing::Full,
    }
}

// The place of a body's first piece: that of the piece that was just added, where none was before it.
fn first_place(first: u64, total: u64, place: u64) -> u64
    ensures none { total ≡ 0 → result ≡ place }
    ensures some { 0 < total → result ≡ first }
{
    if total == 0 { place } else { first }
}

// Stores a body by a buffer that holds a piece and its mark.
fn store_pieces<D: Disk, S: Source>(
    log: &mut Log,
    disk: &mut D,
    run: &mut Run,
    source: &mut S,
    sum: &mut Md5,
    buffer: &mut [u8],
) -> Storing
    requires running { Running D.seen D.may_leave disk.old log.old run.old }
    requires order { log.old.closed ≡ false → log.old.gate ≤ run.old.next }
    requires is_open { log.old.closed ≡ false }
    requires fresh { Holds sum.old [] }
    requires buffer { length buffer.old ≡ 65537 }
    ensures stores { Stores result (S.left source.old) (S.left source.new) sum.new (D.seen disk.old) (D.seen disk.new) log.old log.new run.old run.new }
    ensures any_moment { ForSome (D.seen disk.old) (λ files. LeavesOnly D.moment D.left_since disk.old disk.new (IsBeforeOrAfter files [])) }
    ensures same { result ≢ Storing.Disk → told (D.seen disk.new) ≡ told (D.seen disk.old) }
    ensures others { result ≢ Storing.Disk → OthersStay log.old.file (D.seen disk.old) (D.seen disk.new) }
    ensures running { Running D.seen D.may_leave disk.new log.new run.new }
    ensures order { log.new.closed ≡ false → log.new.gate ≤ run.new.next }
    ensures disk { result ≡ Storing.Disk → Rose (D.faults disk.old) (D.faults disk.new) }
    ensures failed { result ≡ Storing.SourceFault → Rose (S.read_faults source.old) (S.read_faults source.new) }
    ensures memory { result ≢ Storing.Memory }
    ensures faults { NeverFell (D.faults disk.old) (D.faults disk.new) }
    ensures reads { NeverFell (S.read_faults source.old) (S.read_faults source.new) }
    ensures stays { S.source_stays source.old source.new }
{
    let mut first = 0;
    let mut total = 0;
    'pieces: loop {
        let filled = next_piece(source, buffer, sum);
        if filled.count == 0 {
            return last(filled.end, first, total, sum);
        }
        match log.add_to_run(disk, run, &buffer[..filled.count + 1]) {
            Ok(place) => {
                first = first_place(first, total, place);
                total += filled.count as u64;
            }
            Err(AppendError::Full) => return lacking(filled.end),
            Err(AppendError::Disk) => return Storing::Disk,
            // never, since the log is open
            Err(AppendError::Closed) => return Storing::Disk,
        }
        match filled.end {
            End::Whole => {}
            End::Ended | End::Failed => return last(filled.end, first, total, sum),
        }
    }
}

/// Reads a source to its end, and adds its bytes to a run as pieces of 65,536, the last of them shorter. It digests them too: the sum
/// begins as a new one, and goes on behind the bytes that were read. After `Full` the pieces that had room stay in the run, after
/// a fault of the source what came before it. It takes one buffer of 65,537 bytes, and makes two calls of the disk a piece.
pub fn store<D: Disk, S: Source>(
    alloc: Global,
    log: &mut Log,
    disk: &mut D,
    run: &mut Run,
    source: &mut S,
    sum: &mut Md5,
) -> Storing
    requires running { Running D.seen D.may_leave disk.old log.old run.old }
    requires order { log.old.closed ≡ false → log.old.gate ≤ run.old.next }
    requires is_open { log.old.closed ≡ false }
    requires fresh { Holds sum.old [] }
    ensures stores { Stores result (S.left source.old) (S.left source.new) sum.new (D.seen disk.old) (D.seen disk.new) log.old log.new run.old run.new }
    // Nothing counts yet: each image of each moment has the payloads of before.
    ensures any_moment { ForSome (D.seen disk.old) (λ files. LeavesOnly D.moment D.left_since disk.old disk.new (IsBeforeOrAfter files [])) }
    ensures same { result ≢ Storing.Disk → told (D.seen disk.new) ≡ told (D.seen disk.old) }
    ensures others { result ≢ Storing.Disk → OthersStay log.old.file (D.seen disk.old) (D.seen disk.new) }
    ensures running { Running D.seen D.may_leave disk.new log.new run.new }
    ensures order { log.new.closed ≡ false → log.new.gate ≤ run.new.next }
    ensures disk { result ≡ Storing.Disk → Rose (D.faults disk.old) (D.faults disk.new) }
    ensures failed { result ≡ Storing.SourceFault → Rose (S.read_faults source.old) (S.read_faults source.new) }
    ensures memory { result ≡ Storing.Memory → (disk.new ≡ disk.old) × (source.new ≡ source.old) × (sum.new ≡ sum.old) }
    ensures faults { NeverFell (D.faults disk.old) (D.faults disk.new) }
    ensures reads { NeverFell (S.read_faults source.old) (S.read_faults source.new) }
    ensures stays { S.source_stays source.old source.new }
{
    match zeros(alloc, LARGEST_PIECE + 1) {
        Ok(mut buffer) => store_pieces(log, disk, run, source, sum, buffer.as_mut_slice()),
        Err(AllocError) => Storing::Memory,
    }
}

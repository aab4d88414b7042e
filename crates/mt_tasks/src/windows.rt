//! Record files of an ended child are looked at: of each its front and its end.
ghost use Rattle.std.specs.Prelude.{◌≡◌, ◌≤◌, ◌<◌, ◌+◌, ◌^◌, ⊤, true, false, Some, length, take, drop, IfSome};
ghost use Rattle.mt_base.specs.Counts.{NeverFell, Rose};
ghost use Rattle.mt_records.specs.Records.{AreBytes};
ghost use Rattle.mt_records.specs.Seen.{next_file};
ghost use Rattle.mt_spawn.specs.Children.{SameLive};
ghost use Rattle.mt_spawn.specs.Parts.{size_in, told_part};
ghost use Rattle.mt_tasks.specs.Fates.{LooksAt};

use mt_edge::ReadStep;
use mt_records::{END_LEN, Judging, LONGEST_HEAD};
use mt_spawn::{FileSize, Part, Spawner};
use std::alloc::{AllocError, Global};

/// A file that is no longer is read whole.
const WHOLE: usize = LONGEST_HEAD + END_LEN;

/// What became of a look at a file.
#[derive(Clone, Copy, PartialEq, Eq)]
pub(crate) enum Looked {
    /// It was taken into account.
    Seen,
    /// The spawner failed, and counted it.
    Failed,
    /// Out of memory.
    Memory,
}

// Fills the slice with the bytes of a part of what is held, from a place on; or the spawner fails.
fn fill<P: Spawner>(spawner: &mut P, part: Part, at: u64, into: &mut [u8]) -> bool
    requires within { at + length into.old ≤ size_in (P.held spawner.old) part }
    requires fits { at + length into.old < 2 ^ 64 }
    ensures filled { result ≡ true → IfSome (told_part (P.told spawner.old) part) (λ bytes. into.new ≡ take (length into.old) (drop at bytes)) }
    ensures failed { result ≡ false → Rose (P.seen spawner.old).faults (P.seen spawner.new).faults }
    ensures same { SameLive (P.seen spawner.old) (P.seen spawner.new) }
    ensures faults { NeverFell (P.seen spawner.old).faults (P.seen spawner.new).faults }
    ensures held { P.held spawner.new ≡ P.held spawner.old }
    ensures told { P.told spawner.new ≡ P.told spawner.old }
    ensures rule { P.rule spawner.new ≡ P.rule spawner.old }
{
    let mut done = 0;
    while done < into.len() {
        match spawner.read(part, at + done as u64, &mut into[done..]) {
            ReadStep::Took(count) => done += count,
            ReadStep::End => unreachable!(),
            ReadStep::Failed => return false,
        }
    }
    true
}

// The bytes of a slice are bytes.
fn are_bytes(bytes: &[u8])
    ensures { AreBytes bytes.now }
{
    let _ = bytes;
}

// Looks at a short file, all of whose bytes are read.
fn look_whole<P: Spawner>(
    alloc: Global,
    spawner: &mut P,
    judging: &mut Judging,
    size: FileSize,
    bytes: &mut [u8],
) -> Looked
    requires next { next_file judging.old ≡ Some size }
    requires held { P.held spawner.old ≡ Some judging.old.left }
    requires len { length bytes.old ≡ size.len }
    ensures seen { result ≡ Looked.Seen → LooksAt (P.told spawner.old) size judging.old judging.new }
    ensures failed { result ≡ Looked.Failed → Rose (P.seen spawner.old).faults (P.seen spawner.new).faults }
    ensures same { SameLive (P.seen spawner.old) (P.seen spawner.new) }
    ensures faults { NeverFell (P.seen spawner.old).faults (P.seen spawner.new).faults }
    ensures held { P.held spawner.new ≡ P.held spawner.old }
    ensures told { P.told spawner.new ≡ P.told spawner.old }
    ensures rule { P.rule spawner.new ≡ P.rule spawner.old }
{
    let part = Part::File {
        index: judging.count(),
    };
    if !fill(spawner, part, 0, bytes) {
        return Looked::Failed;
    }
    let whole = &bytes[..];
    are_bytes(whole);
    let end = whole.len().saturating_sub(END_LEN);
    match judging.file(alloc, size, whole, &whole[end..]) {
        Ok(()) => Looked::Seen,
        Err(AllocError) => Looked::Memory,
    }
}

// Looks at a long file, whose front and end are read.
fn look_ends<P: Spawner>(
    alloc: Global,
    spawner: &mut P,
    judging: &mut Judging,
    size: FileSize,
) -> Looked
    requires next { next_file judging.old ≡ Some size }
    requires held { P.held spawner.old ≡ Some judging.old.left }
    requires len { 1221 < size.len }
    ensures seen { result ≡ Looked.Seen → LooksAt (P.told spawner.old) size judging.old judging.new }
    ensures failed { result ≡ Looked.Failed → Rose (P.seen spawner.old).faults (P.seen spawner.new).faults }
    ensures same { SameLive (P.seen spawner.old) (P.seen spawner.new) }
    ensures faults { NeverFell (P.seen spawner.old).faults (P.seen spawner.new).faults }
    ensures held { P.held spawner.new ≡ P.held spawner.old }
    ensures told { P.told spawner.new ≡ P.told spawner.old }
    ensures rule { P.rule spawner.new ≡ P.rule spawner.old }
{
    let part = Part::File {
        index: judging.count(),
    };
    let mut front = [0; LONGEST_HEAD];
    let mut end = [0; END_LEN];
    if !fill(spawner, part, 0, &mut front) {
        return Looked::Failed;
    }
    if !fill(spawner, part, size.len - END_LEN as u64, &mut end) {
        return Looked::Failed;
    }
    are_bytes(&front);
    match judging.file(alloc, size, &front, &end) {
        Ok(()) => Looked::Seen,
        Err(AllocError) => Looked::Memory,
    }
}

/// Looks at the next record file of what is held, by its first 1,209 bytes and its last 12; at all of one that has no more than these.
pub(crate) fn look<P: Spawner>(
    alloc: Global,
    spawner: &mut P,
    judging: &mut Judging,
    size: FileSize,
) -> Looked
    requires next { next_file judging.old ≡ Some size }
    requires held { P.held spawner.old ≡ Some judging.old.left }
    ensures seen { result ≡ Looked.Seen → LooksAt (P.told spawner.old) size judging.old judging.new }
    ensures failed { result ≡ Looked.Failed → Rose (P.seen spawner.old).faults (P.seen spawner.new).faults }
    ensures same { SameLive (P.seen spawner.old) (P.seen spawner.new) }
    ensures faults { NeverFell (P.seen spawner.old).faults (P.seen spawner.new).faults }
    ensures held { P.held spawner.new ≡ P.held spawner.old }
    ensures told { P.told spawner.new ≡ P.told spawner.old }
    ensures rule { P.rule spawner.new ≡ P.rule spawner.old }
{
    if size.len > WHOLE as u64 {
        return look_ends(alloc, spawner, judging, size);
    }
    let mut bytes = [0; WHOLE];
    look_whole(
        alloc,
        spawner,
        judging,
        size,
        &mut bytes[..size.len as usize],
    )
}

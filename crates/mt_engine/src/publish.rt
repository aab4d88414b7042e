//! The end of a run: its records count, all at once, or none of them.
ghost use Rattle.std.specs.Prelude.{◌≡◌, ◌<◌, ◌≤◌, ◌+◌, ◌^◌, [], ◌∷◌, ◌++◌, ℕ, List, true, false, length, is_some};
ghost use Rattle.std.specs.Option.{ForSome};
ghost use Rattle.mt_base.specs.Counts.{NeverFell, Rose};
ghost use Rattle.mt_disk.specs.CrashModel.{LeavesOnly};
ghost use Rattle.mt_log.specs.LogImage.{IsBeforeOrAfter};
ghost use Rattle.mt_log.specs.LogState.{Stands, next_place, told, with_payloads};
ghost use Rattle.mt_log.specs.RunState.{HasTaken, Running, size_with_run};

use mt_disk::Disk;
use mt_log::{AppendError, Log, Run};

/// What became of a run that was ended or given up.
#[derive(Clone, Copy, Debug, PartialEq, Eq)]
pub enum RunEnd {
    /// Its records are on the disk, or were given up.
    Done,
    /// The disk has failed. The log is closed, and its disk has all of the records or none; none of those given up.
    Disk,
}

/// Ends a run of an open log.
pub(crate) fn end_log_run<D: Disk>(log: &mut Log, disk: &mut D, run: Run) -> RunEnd
    requires running { Running D.seen D.may_leave disk.old log.old run }
    requires order { log.old.closed ≡ false → log.old.gate ≤ run.next }
    requires is_open { log.old.closed ≡ false }
    ensures added { (records : List (List ℕ)) → HasTaken (D.seen disk.old) log.old run records → result ≡ RunEnd.Done →
        told (D.seen disk.new) ≡ with_payloads records (told (D.seen disk.old)) }
    ensures place { result ≡ RunEnd.Done → log.new ≡ record log.old { gate = run.next } }
    ensures any_moment { ForSome (D.seen disk.old) (λ files. (records : List (List ℕ)) → HasTaken (D.seen disk.old) log.old run records →
        LeavesOnly D.moment D.left_since disk.old disk.new (IsBeforeOrAfter files records)) }
    ensures stands { Stands D.seen D.may_leave disk.new log.new }
    ensures told { result ≡ RunEnd.Done → is_some (D.seen disk.new) ≡ is_some (D.seen disk.old) }
    ensures disk { result ≡ RunEnd.Disk → Rose (D.faults disk.old) (D.faults disk.new) }
    ensures closes { result ≡ RunEnd.Disk → log.new ≡ record log.old { closed = true } }
    ensures faults { NeverFell (D.faults disk.old) (D.faults disk.new) }
{
    match log.end_run(disk, run) {
        Ok(()) => RunEnd::Done,
        Err(AppendError::Disk) => RunEnd::Disk,
        Err(AppendError::Closed | AppendError::Full) => unreachable!(),
    }
}

/// Adds a last record to a run of an open log, and ends it.
pub(crate) fn publish<D: Disk>(log: &mut Log, disk: &mut D, mut run: Run, payload: &[u8]) -> RunEnd
    requires running { Running D.seen D.may_leave disk.old log.old run }
    requires order { log.old.closed ≡ false → log.old.gate ≤ run.next }
    requires is_open { log.old.closed ≡ false }
    requires payload { length payload.now < 2 ^ 32 }
    requires room { size_with_run run (length payload.now) ≤ log.old.limit }
    ensures added { (records : List (List ℕ)) → HasTaken (D.seen disk.old) log.old run records → result ≡ RunEnd.Done →
        told (D.seen disk.new) ≡ with_payloads (records ++ payload.now ∷ []) (told (D.seen disk.old)) }
    ensures place { result ≡ RunEnd.Done → log.new ≡ record log.old { gate = next_place run.next (length payload.now) } }
    ensures any_moment { ForSome (D.seen disk.old) (λ files. (records : List (List ℕ)) → HasTaken (D.seen disk.old) log.old run records →
        LeavesOnly D.moment D.left_since disk.old disk.new (IsBeforeOrAfter files (records ++ payload.now ∷ []))) }
    ensures stands { Stands D.seen D.may_leave disk.new log.new }
    ensures told { result ≡ RunEnd.Done → is_some (D.seen disk.new) ≡ is_some (D.seen disk.old) }
    ensures disk { result ≡ RunEnd.Disk → Rose (D.faults disk.old) (D.faults disk.new) }
    ensures closes { result ≡ RunEnd.Disk → log.new ≡ record log.old { closed = true } }
    ensures faults { NeverFell (D.faults disk.old) (D.faults disk.new) }
{
    match log.add_to_run(disk, &mut run, payload) {
        Ok(_) => end_log_run(log, disk, run),
        Err(AppendError::Disk) => RunEnd::Disk,
        Err(AppendError::Closed | AppendError::Full) => unreachable!(),
    }
}

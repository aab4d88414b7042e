//! What a drill finds.
ghost use Rattle.std.specs.Prelude.{◌≡◌, ◌⊎◌, [], is_some};
ghost use Rattle.std.specs.Option.{ForSome};
ghost use Rattle.mt_base.specs.Counts.{NeverFell, Rose};
ghost use Rattle.mt_disk.specs.CrashModel.{IsAtRest, LeavesOnly};
ghost use Rattle.mt_opening.specs.History.{HasHistory};
ghost use Rattle.mt_opening.specs.Opening.{IsReadable, IsRefused, KeepsLogs};
ghost use Rattle.mt_opening.specs.declared.opening.Unreadable.{Unreadable};
ghost use Rattle.mt_log.specs.LogImage.{Fit, SameLog};
ghost use Rattle.mt_model.specs.State.{first_state};
ghost use Rattle.mt_drill.specs.Logs.{HasNone, HasRecord};

use crate::line::LOG_LIMIT;
use mt_disk::Disk;
use mt_engine::Engine;
use mt_opening::{OpenEnd, Unreadable};
use std::alloc::Global;

/// The bytes of a log without a record.
const EMPTY_LOG: u64 = 9;

/// What a drill finds.
#[derive(Clone, Copy, Debug, PartialEq, Eq)]
pub(crate) enum Found {
    /// A log without a record.
    Empty,
    /// One that has a record.
    Record,
    /// One that can't be read, and why.
    Unreadable(Unreadable),
    /// The disk failed, and counted it.
    Disk,
    /// Out of memory.
    Memory,
}

/// Opens the log of a disk, and tells whether it has a record. A log is made where there is none.
pub(crate) fn look<D: Disk>(alloc: Global, disk: &mut D) -> Found
    requires rest { IsAtRest D.seen D.may_leave disk.old }
    requires fit { ForSome (D.seen disk.old) Fit }
    ensures empty { result ≡ Found.Empty → ForSome (D.seen disk.old) HasNone × ForSome (D.seen disk.new) (HasHistory first_state []) × (is_some (D.seen disk.new) ≡ is_some (D.seen disk.old)) }
    ensures recorded { result ≡ Found.Record → ForSome (D.seen disk.old) (λ files. IsReadable files × HasRecord files) }
    ensures unreadable { (why : Unreadable) → result ≡ Found.Unreadable why → ForSome (D.seen disk.old) (λ files. IsRefused files why × KeepsLogs D.seen D.may_leave disk.new files) }
    ensures any_moment { ForSome (D.seen disk.old) (λ files. LeavesOnly D.moment D.left_since disk.old disk.new (SameLog files)) }
    ensures rest { (result ≡ Found.Empty) ⊎ (result ≡ Found.Record) → IsAtRest D.seen D.may_leave disk.new × ForSome (D.seen disk.new) Fit }
    ensures disk { result ≡ Found.Disk → Rose (D.faults disk.old) (D.faults disk.new) }
    ensures faults { NeverFell (D.faults disk.old) (D.faults disk.new) }
{
    match Engine::open(alloc, disk, LOG_LIMIT) {
        Ok(engine) => {
            if engine.used() == EMPTY_LOG {
                Found::Empty
            } else {
                Found::Record
            }
        }
        Err(OpenEnd::Unreadable(why)) => Found::Unreadable(why),
        Err(OpenEnd::Disk) => Found::Disk,
        Err(OpenEnd::Memory) => Found::Memory,
    }
}

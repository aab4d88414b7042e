//! Opening the log of a disk, and the state that it stands for.
ghost use Rattle.std.specs.Prelude.{◌≡◌, Err, is_some, IfOk, OnOk, IsErrOf};
ghost use Rattle.std.specs.Option.{ForSome};
ghost use Rattle.mt_base.specs.Counts.{NeverFell, Rose};
ghost use Rattle.mt_disk.specs.CrashModel.{IsAtRest, LeavesOnly};
ghost use Rattle.mt_log.specs.LogImage.{Fit, SameLog};
ghost use Rattle.mt_model.specs.State.{State};
ghost use Rattle.mt_opening.specs.Current.{EngineIsReady, IsCurrent};
ghost use Rattle.mt_opening.specs.History.{Bytes, HasHistory, History};
ghost use Rattle.mt_opening.specs.Opening.{IsReadable, IsRefused, KeepsLogs};
ghost use Rattle.mt_opening.specs.declared.opening.Unreadable.{Unreadable};

use crate::engine::Engine;
use mt_disk::Disk;
use mt_opening::{OpenEnd, open_log};
use std::alloc::Global;

impl Engine {
    /// Opens the log of a disk, which may get `limit` bytes long, and the state that it stands for. A log is made where there is none,
    /// and one that can't be read is left as it is. While it opens it keeps 16 bytes a body and a window of 16,384 bytes of the log; it
    /// digests each byte of a body once for each command that brings it.
    pub fn open<D: Disk>(alloc: Global, disk: &mut D, limit: u64) -> Result<Engine, OpenEnd>
        requires rest { IsAtRest D.seen D.may_leave disk.old }
        requires fit { ForSome (D.seen disk.old) Fit }
        ensures current { ForSome (D.seen disk.old) (λ files. (base : State Bytes) (h : History) → HasHistory base h files →
            IfOk result (λ e. IsCurrent (D.seen disk.new) e base h)) }
        ensures limit { IfOk result (λ e. e.log.limit ≡ limit) }
        ensures ready { IfOk result (λ e. EngineIsReady D.seen D.may_leave disk.new e) }
        // A disk that told what it held tells it still.
        ensures tells { OnOk result (is_some (D.seen disk.new) ≡ is_some (D.seen disk.old)) }
        // Only what can be read is opened, and what is refused is refused for its first fault, and stays.
        ensures opened { OnOk result (ForSome (D.seen disk.old) IsReadable) }
        ensures refused { (why : Unreadable) → result ≡ Err (OpenEnd.Unreadable why) →
            ForSome (D.seen disk.old) (λ files. IsRefused files why × KeepsLogs D.seen D.may_leave disk.new files) }
        ensures any_moment { ForSome (D.seen disk.old) (λ files. LeavesOnly D.moment D.left_since disk.old disk.new (SameLog files)) }
        ensures disk { IsErrOf result OpenEnd.Disk → Rose (D.faults disk.old) (D.faults disk.new) }
        ensures faults { NeverFell (D.faults disk.old) (D.faults disk.new) }
    {
        match open_log(alloc, disk, limit) {
            Ok((log, account)) => Ok(Engine { log, account }),
            Err(end) => Err(end),
        }
    }
}

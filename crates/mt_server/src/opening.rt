//! The store of a run: it is opened, or how the run ends without it.
ghost use Rattle.std.specs.Prelude.{◌≡◌, Err, is_some, IfOk, OnOk};
ghost use Rattle.std.specs.Option.{ForSome};
ghost use Rattle.std.specs.Result.{IfErr};
ghost use Rattle.mt_base.specs.Counts.{NeverFell};
ghost use Rattle.mt_disk.specs.CrashModel.{IsAtRest, LeavesOnly};
ghost use Rattle.mt_log.specs.LogImage.{Fit, SameLog};
ghost use Rattle.mt_model.specs.State.{State};
ghost use Rattle.mt_opening.specs.Current.{EngineIsReady, IsCurrent};
ghost use Rattle.mt_opening.specs.History.{Bytes, HasHistory, History};
ghost use Rattle.mt_opening.specs.Opening.{IsReadable, IsRefused, KeepsLogs};
ghost use Rattle.mt_opening.specs.declared.opening.Unreadable.{Unreadable};
ghost use Rattle.mt_server.specs.Statuses.{IsSilent, IsUnopened, NotOpened, Tells};

use crate::line::{say, unreadable_line};
use crate::status::Status;
use mt_disk::Disk;
use mt_edge::Sink;
use mt_engine::Engine;
use mt_opening::OpenEnd;
use std::alloc::Global;

// Says why a store was not opened, and gives the status for it.
fn not_opened<K: Sink>(alloc: Global, sink: &mut K, end: OpenEnd) -> Status
    ensures tells { Tells end (K.got sink.old) (K.write_faults sink.old) result (K.got sink.new) (K.write_faults sink.new) }
    ensures silent { IsSilent result → sink.new ≡ sink.old }
    ensures stays { K.sink_stays sink.old sink.new }
{
    match end {
        OpenEnd::Unreadable(why) => match unreadable_line(alloc, &why) {
            Ok(text) => {
                say(sink, text.as_slice());
                Status::UnreadableLog(why)
            }
            Err(_) => Status::OutOfMemory,
        },
        OpenEnd::Disk => Status::OpeningFault,
        OpenEnd::Memory => Status::OutOfMemory,
    }
}

// Opens the store, or says why it can't be opened.
pub(crate) fn open_store<K: Sink, D: Disk>(
    alloc: Global,
    limit: u64,
    sink: &mut K,
    disk: &mut D,
) -> Result<Engine, Status>
    requires rest { IsAtRest D.seen D.may_leave disk.old }
    requires fit { ForSome (D.seen disk.old) Fit }
    ensures current { ForSome (D.seen disk.old) (λ files. (base : State Bytes) (h : History) → HasHistory base h files →
        IfOk result (λ e. IsCurrent (D.seen disk.new) e base h)) }
    ensures limit { IfOk result (λ e. e.log.limit ≡ limit) }
    ensures ready { IfOk result (λ e. EngineIsReady D.seen D.may_leave disk.new e) }
    // A disk that told what it held tells it still.
    ensures tells { OnOk result (is_some (D.seen disk.new) ≡ is_some (D.seen disk.old)) }
    ensures opened { OnOk result ((sink.new ≡ sink.old) × ForSome (D.seen disk.old) IsReadable) }
    ensures unopened { IfErr result (λ end. IsUnopened end × NotOpened end (K.got sink.old) (K.write_faults sink.old) (D.faults disk.old) (K.got sink.new) (K.write_faults sink.new) (D.faults disk.new)) }
    ensures silent { IfErr result (λ end. IsSilent end → sink.new ≡ sink.old) }
    ensures refused { (why : Unreadable) → result ≡ Err (Status.UnreadableLog why) →
        ForSome (D.seen disk.old) (λ files. IsRefused files why × KeepsLogs D.seen D.may_leave disk.new files) }
    ensures any_moment { ForSome (D.seen disk.old) (λ files. LeavesOnly D.moment D.left_since disk.old disk.new (SameLog files)) }
    ensures faults { NeverFell (D.faults disk.old) (D.faults disk.new) }
    ensures stays { K.sink_stays sink.old sink.new }
{
    match Engine::open(alloc, disk, limit) {
        Ok(engine) => Ok(engine),
        Err(end) => Err(not_opened(alloc, sink, end)),
    }
}

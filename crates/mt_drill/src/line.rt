//! The line of a drill, by the log that it left.
ghost use Rattle.std.specs.Prelude.{◌≡◌, Err, IfOk};
ghost use Rattle.std.specs.Option.{ForSome};
ghost use Rattle.mt_base.specs.Counts.{NeverFell, Rose};
ghost use Rattle.mt_disk.specs.CrashModel.{IsAtRest, LeavesOnly};
ghost use Rattle.mt_opening.specs.Current.{EngineIsReady, IsCurrent};
ghost use Rattle.mt_opening.specs.History.{Bytes, HasHistory, History};
ghost use Rattle.mt_opening.specs.Looking.{OnlyReads};
ghost use Rattle.mt_log.specs.LogImage.{Fit, SameLog};
ghost use Rattle.mt_model.specs.State.{State, first_state};
ghost use Rattle.mt_drill.specs.DrillLine.{IsLineOf};

use crate::end::Stopped;
use crate::figures::{finished_job, put_counts, put_figures};
use crate::text::put_words;
use mt_disk::Disk;
use mt_engine::Engine;
use mt_opening::OpenEnd;
use std::alloc::Global;

/// As many bytes as a log may have, unless words say so. That of a drill of 10,000 objects has some 3,000,000.
pub(crate) const LOG_LIMIT: u64 = 1 << 30;

// Opens the log that a session left.
fn open_again<D: Disk>(alloc: Global, disk: &mut D) -> Result<Engine, Stopped>
    requires rest { IsAtRest D.seen D.may_leave disk.old }
    requires fit { ForSome (D.seen disk.old) Fit }
    ensures current { ForSome (D.seen disk.old) (λ files. (base : State Bytes) (h : History) → HasHistory base h files →
        IfOk result (λ e. IsCurrent (D.seen disk.new) e base h)) }
    ensures ready { IfOk result (λ e. EngineIsReady D.seen D.may_leave disk.new e) }
    ensures any_moment { ForSome (D.seen disk.old) (λ files. LeavesOnly D.moment D.left_since disk.old disk.new (SameLog files)) }
    ensures disk { result ≡ Err Stopped.Disk → Rose (D.faults disk.old) (D.faults disk.new) }
    ensures faults { NeverFell (D.faults disk.old) (D.faults disk.new) }
{
    match Engine::open(alloc, disk, LOG_LIMIT) {
        Ok(engine) => Ok(engine),
        Err(OpenEnd::Disk) => Err(Stopped::Disk),
        Err(OpenEnd::Unreadable(_) | OpenEnd::Memory) => Err(Stopped::Memory),
    }
}

// The line of a drill of so many objects, to whose messages there were so many replies, by the engine of its log.
fn line_by<D: Disk>(
    alloc: Global,
    engine: &Engine,
    disk: &mut D,
    count: u32,
    replies: u64,
) -> Result<Vec<u8>, Stopped>
    requires ready { EngineIsReady D.seen D.may_leave disk.old engine.now }
    ensures tells { (k : History) → IsCurrent (D.seen disk.old) engine.now first_state k → IfOk result (λ line. IsLineOf count replies k line.items) }
    ensures reads { OnlyReads D.seen D.may_leave D.moment D.left_since D.faults disk.old disk.new (result ≡ Err Stopped.Disk) }
{
    let Some(job) = finished_job(engine, count) else {
        return Err(Stopped::Memory);
    };
    let mut out = Vec::new(alloc);
    let tasks = job.trace.len() as u64;
    put_counts(&mut out, count, replies, engine.position(), tasks)?;
    put_figures(&mut out, engine, disk, job)?;
    put_words(&mut out, b"\n")?;
    Ok(out)
}

/// The line of a drill of so many objects, to whose messages there were so many replies.
pub(crate) fn line_of<D: Disk>(
    alloc: Global,
    disk: &mut D,
    count: u32,
    replies: u64,
) -> Result<Vec<u8>, Stopped>
    requires rest { IsAtRest D.seen D.may_leave disk.old }
    requires fit { ForSome (D.seen disk.old) Fit }
    ensures tells { ForSome (D.seen disk.old) (λ files. (k : History) → HasHistory first_state k files → IfOk result (λ line. IsLineOf count replies k line.items)) }
    ensures any_moment { ForSome (D.seen disk.old) (λ files. LeavesOnly D.moment D.left_since disk.old disk.new (SameLog files)) }
    ensures disk { result ≡ Err Stopped.Disk → Rose (D.faults disk.old) (D.faults disk.new) }
    ensures faults { NeverFell (D.faults disk.old) (D.faults disk.new) }
{
    let engine = open_again(alloc, disk)?;
    let line = line_by(alloc, &engine, disk, count, replies)?;
    Ok(line)
}

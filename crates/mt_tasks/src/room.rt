//! Whether a command has room, which is asked before a byte of it is stored.
ghost use Rattle.std.specs.Prelude.{◌≡◌, ◌≤◌, ◌↔◌, ℕ, false, true, IfOk, IsTrue, None, Some, is_some};
ghost use Rattle.mt_base.specs.declared.limits.TheConstants.{LAST_MOMENT};
ghost use Rattle.mt_engine.specs.Accepting.{HasRoomFor};
ghost use Rattle.mt_engine.specs.Archiving.{texts_size};
ghost use Rattle.mt_model.specs.CommandStep.{allowed};
ghost use Rattle.mt_model.specs.Keeping.{IsSaidFate};
ghost use Rattle.mt_model.specs.State.{job_at};
ghost use Rattle.mt_tasks.specs.Sizes.{blank, commit_of, fate_size, no_archive};
ghost use Rattle.mt_tasks.specs.Standing.{waiting};
ghost use Rattle.mt_types.specs.Limits.{is_number};
ghost use Rattle.mt_types.specs.WellMade.{IsWellMadeFate};
ghost use Rattle.mt_types.specs.declared.body.Body.{Body};
ghost use Rattle.mt_types.specs.declared.command.Archive.{Archive};
ghost use Rattle.mt_types.specs.declared.command.Command.{Command};

use crate::sizes::{NO_BODY, blank_fate, fate_len};
use mt_engine::Engine;
use mt_records::Range;
use mt_types::{Archive, Command, Fate, Task};
use std::alloc::{AllocError, Global};

/// The number of a job that is there is one of a job.
pub(crate) fn has_number(engine: &Engine, job: u64)
    requires { is_some (job_at engine.now.state.jobs job) ≡ true }
    ensures { IsTrue (is_number job) }
{
    let _ = engine.position();
    let _ = engine.jobs();
}

/// A job that waits to be finished is one, and may be closed.
pub(crate) fn has_waiting(engine: &Engine, job: u64)
    requires { waiting engine.now.state ≡ Some job }
    ensures found { is_some (job_at engine.now.state.jobs job) ≡ true }
    ensures number { IsTrue (is_number job) }
    ensures free { (a : Archive Body) (m : ℕ) → allowed (λ b. b.len) engine.now.state (Command.Close job false a m) ≡ None }
{
    let _ = engine.position();
    let _ = engine.jobs();
}

/// Whether the commit of a task has room. Its bodies are as long as their ranges, and all else of it is spelled.
pub(crate) fn has_fate_room(
    alloc: Global,
    engine: &Engine,
    task: &Task,
    fate: &Fate<Range>,
    now: u64,
) -> Result<bool, AllocError>
    requires found { is_some (job_at engine.now.state.jobs task.now.job) ≡ true }
    requires made { IsWellMadeFate fate.now }
    requires said { IsSaidFate fate.now }
    requires moment { now ≤ LAST_MOMENT }
    ensures { IfOk result (λ b. IsTrue b ↔ HasRoomFor engine.now (fate_size fate.now) (commit_of task.now now (blank fate.now))) }
{
    has_number(engine, task.job);
    let pieces = fate_len(fate)?;
    let blank = blank_fate(alloc, fate)?;
    let command = Command::Commit {
        job: task.job,
        phase: task.phase,
        place: task.place,
        fate: blank,
        moment: now,
    };
    engine.has_room(alloc, pieces, &command)
}

/// Whether the end of a job has room, with its texts.
pub(crate) fn has_archive_room(
    alloc: Global,
    login: &str,
    engine: &Engine,
    job: u64,
    now: u64,
) -> Result<bool, AllocError>
    requires found { is_some (job_at engine.now.state.jobs job) ≡ true }
    requires moment { now ≤ LAST_MOMENT }
    ensures { IfOk result (λ b. IsTrue b ↔ HasRoomFor engine.now (texts_size login.now engine.now job false now) (Command.Close job false no_archive now)) }
{
    has_number(engine, job);
    let pieces = engine.archive_len(alloc, login, job, false, now)?;
    let command = Command::Close {
        job,
        cancelled: false,
        archive: Archive {
            err: NO_BODY,
            fail: NO_BODY,
            input: NO_BODY,
            status: NO_BODY,
            out: NO_BODY,
        },
        moment: now,
    };
    engine.has_room(alloc, pieces, &command)
}

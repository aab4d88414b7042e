//! The end of a job that is cancelled: its texts are stored where they and its command have room.
ghost use Rattle.std.specs.Prelude.{◌≡◌, None, Some, false, true};
ghost use Rattle.md5.specs.Md5.{md5};
ghost use Rattle.mt_answer.specs.Posting.{posted_of};
ghost use Rattle.mt_api.specs.Answered.{Asked, answer_at, used};
ghost use Rattle.mt_api.specs.GoingOn.{SettlesCall};
ghost use Rattle.mt_api.specs.Jobs.{CancelsJob, IsJobCallOf, JobCallIsReady, job_refusal};
ghost use Rattle.mt_api.specs.Steps.{Settles};
ghost use Rattle.mt_codec.specs.Spelling.{FitsArchive};
ghost use Rattle.mt_disk.specs.CrashModel.{LeavesOnly};
ghost use Rattle.mt_opening.specs.Current.{IsBetween, IsCurrent};
ghost use Rattle.mt_opening.specs.History.{Bytes, History};
ghost use Rattle.mt_engine.specs.Accepting.{HasRoomFor};
ghost use Rattle.mt_engine.specs.Archiving.{texts_size};
ghost use Rattle.mt_model.specs.CommandStep.{replay};
ghost use Rattle.mt_model.specs.State.{State};
ghost use Rattle.mt_types.specs.declared.body.Body.{Body};
ghost use Rattle.mt_types.specs.declared.command.Archive.{Archive};
ghost use Rattle.mt_types.specs.declared.command.Command.TheVariants.{Close};

use crate::answered::Answered;
use crate::call::JobCall;
use crate::job_change::{add_job, give_up};
use crate::perform::NO_BODY;
use crate::refuse::refuse;
use mt_disk::Disk;
use mt_engine::{Archiving, Engine};
use mt_error::{ErrorCode, Refused};
use mt_types::{Archive, Body, Command};
use std::alloc::{AllocError, Global};

// Five bodies without a byte.
fn blank_archive() -> Archive<Body>
    ensures { FitsArchive false result }
{
    Archive {
        err: NO_BODY,
        fail: NO_BODY,
        input: NO_BODY,
        status: NO_BODY,
        out: NO_BODY,
    }
}

// The command that cancels a job.
fn close_command(job: u64, archive: Archive<Body>, moment: u64) -> Command<Body>
    ensures command { result ≡ Close job true archive moment }
{
    Command::Close {
        job,
        cancelled: true,
        archive,
        moment,
    }
}

// Cancels a job whose texts and command have room.
fn end_job<D: Disk>(
    alloc: Global,
    login: &str,
    engine: &mut Engine,
    disk: &mut D,
    call: JobCall,
    job: u64,
) -> Answered
    requires ready { JobCallIsReady D.seen D.may_leave disk.old engine.old call }
    requires cancels { CancelsJob engine.old call job }
    requires room { (archive : Archive Body) → HasRoomFor engine.old (texts_size login.now engine.old job true call.stamp.moment) (Close job true archive call.stamp.moment) }
    ensures settles { (base : State Bytes) (h : History) (asked : Asked) (bytes : Bytes) → IsCurrent (D.seen disk.old) engine.old base h → IsJobCallOf login.now asked engine.old call →
        job_refusal engine.old call.request (posted_of login.now call.request.doing bytes) (Some (md5 bytes)) ≡ None →
        (k : History) × Settles result (answer_at asked engine.old (replay base h) bytes) (used engine.old) base h (D.seen disk.new) engine.new k
        × LeavesOnly D.moment D.left_since disk.old disk.new (IsBetween base h k) }
    ensures settled { SettlesCall D.seen D.may_leave D.faults disk.old disk.new result engine.old engine.new }
{
    let moment = call.stamp.moment;
    let mut run = engine.begin_run(disk);
    match engine.store_archive(alloc, disk, &mut run, login, job, true, moment) {
        Archiving::Stored(archive) => {
            let command = close_command(job, archive, moment);
            return add_job(alloc, login, engine, disk, run, call, command);
        }
        // room was asked for before
        Archiving::Full => unreachable!(),
        Archiving::Memory => return give_up(engine, disk, run),
        Archiving::Disk => return Answered::Disk,
    }
}

/// Cancels a job, which isn't refused. Its texts are gone over for their lengths first, and no byte is written where they have no room.
pub(crate) fn cancel<D: Disk>(
    alloc: Global,
    login: &str,
    engine: &mut Engine,
    disk: &mut D,
    call: JobCall,
    job: u64,
) -> Answered
    requires ready { JobCallIsReady D.seen D.may_leave disk.old engine.old call }
    requires cancels { CancelsJob engine.old call job }
    ensures settles { (base : State Bytes) (h : History) (asked : Asked) (bytes : Bytes) → IsCurrent (D.seen disk.old) engine.old base h → IsJobCallOf login.now asked engine.old call →
        job_refusal engine.old call.request (posted_of login.now call.request.doing bytes) (Some (md5 bytes)) ≡ None →
        (k : History) × Settles result (answer_at asked engine.old (replay base h) bytes) (used engine.old) base h (D.seen disk.new) engine.new k
        × LeavesOnly D.moment D.left_since disk.old disk.new (IsBetween base h k) }
    ensures settled { SettlesCall D.seen D.may_leave D.faults disk.old disk.new result engine.old engine.new }
{
    let moment = call.stamp.moment;
    let pieces = match engine.archive_len(alloc, login, job, true, moment) {
        Ok(pieces) => pieces,
        Err(AllocError) => return Answered::Memory,
    };
    let command = close_command(job, blank_archive(), moment);
    let has_room = match engine.has_room(alloc, pieces, &command) {
        Ok(has_room) => has_room,
        Err(AllocError) => return Answered::Memory,
    };
    if has_room {
        return end_job(alloc, login, engine, disk, call, job);
    }
    refuse(alloc, call.stamp, Refused::plain(ErrorCode::NotEnoughSpace))
}

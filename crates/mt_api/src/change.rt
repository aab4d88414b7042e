//! Requests that change the account: the command that ends a run.
ghost use Rattle.std.specs.Prelude.{◌≡◌, ◌≤◌, ℕ, List, false, IfOk, is_some};
ghost use Rattle.mt_answer.specs.Answer as words;
ghost use Rattle.mt_answer.specs.Judging.{len_of, md5_of};
ghost use Rattle.mt_api.specs.Answered.{Asked, answer_at, used};
ghost use Rattle.mt_api.specs.Steps.{Adds, IsCallOf, IsReady, Settles};
ghost use Rattle.mt_disk.specs.CrashModel.{LeavesOnly};
ghost use Rattle.mt_opening.specs.Current.{IsBetween};
ghost use Rattle.mt_opening.specs.History.{Bytes, History};
ghost use Rattle.mt_model.specs.CommandStep.{replay};
ghost use Rattle.mt_model.specs.State.{State};
ghost use Rattle.mt_api.specs.GoingOn.{CallInRun, SettlesInRun};

use crate::answered::Answered;
use crate::call::Call;
use crate::refuse::{end_with, refuse};
use mt_answer::laws::lawful_is_listable;
use mt_answer::{command_of, reply_to};
use mt_base::LAST_MOMENT;
use mt_disk::Disk;
use mt_engine::{Accepted, Engine};
use mt_error::{ErrorCode, Refused};
use mt_log::Run;
use mt_reply::Stamp;
use mt_request::Doing;
use mt_tree::Tree;
use mt_types::{Body, Entry, Reply};
use std::alloc::{AllocError, Global};

/// The reply to a call that isn't refused, behind so many commands; `sum` is the digest of the body of a put.
pub(crate) fn reply_at(
    alloc: Global,
    engine: &Engine,
    call: &Call,
    position: u64,
    sum: &[u8; 16],
) -> Result<Reply<Body>, AllocError>
    requires { call.now.stamp.moment ≤ LAST_MOMENT }
    ensures { IfOk result (λ reply. reply ≡ words.reply_to len_of md5_of (record call.now.stamp { position = position })
        engine.now.state.count engine.now.state.rows call.now.conditions call.now.request.doing sum.now) }
{
    lawful_is_listable();
    let stamp = Stamp {
        position,
        moment: call.stamp.moment,
        closes: call.stamp.closes,
    };
    reply_to(
        alloc,
        stamp,
        engine.position(),
        engine.tree(),
        &call.conditions,
        &call.request.doing,
        sum,
    )
}

/// Whether what is asked for has a command: all but looking, and making a directory that stands.
pub(crate) fn adds(tree: &Tree<Body>, doing: &Doing) -> bool
    ensures { (body : Body) (moment : ℕ) → is_some (words.command_of tree.now doing.now body moment) ≡ result }
{
    match doing {
        Doing::PutObject { .. } => true,
        Doing::PutLink { .. } => true,
        Doing::Remove { .. } => true,
        Doing::PutDirectory { path } => match tree.get(path) {
            Some(Entry::Directory { .. }) => false,
            _ => true,
        },
        Doing::Nothing => false,
        Doing::Look { .. } => false,
    }
}

/// Ends a run with the command of a call that isn't refused. The reply is made first, and given out once the command is on the disk.
pub(crate) fn add<D: Disk>(
    alloc: Global,
    engine: &mut Engine,
    disk: &mut D,
    run: Run,
    call: Call,
    body: Body,
) -> Answered
    requires ready { CallInRun D.seen D.may_leave disk.old engine.old run call body }
    requires adds { Adds engine.old call.request.doing }
    ensures settles { (base : State Bytes) (h : History) (qs : List (List ℕ)) (asked : Asked) (bytes : Bytes) → IsCallOf asked engine.old call →
        IsReady (D.seen disk.old) engine.old run base h qs call body bytes →
        (k : History) × Settles result (answer_at asked engine.old (replay base h) bytes) (used engine.old) base h (D.seen disk.new) engine.new k
        × LeavesOnly D.moment D.left_since disk.old disk.new (IsBetween base h k) }
    ensures settled { SettlesInRun D.seen D.may_leave D.faults disk.old disk.new result engine.old engine.new }
{
    let stamp = call.stamp;
    let position = engine.position() + 1;
    let reply = match reply_at(alloc, engine, &call, position, &body.md5) {
        Ok(reply) => reply,
        Err(AllocError) => return end_with(engine, disk, run, Answered::Memory),
    };
    let command = match command_of(engine.tree(), call.request.doing, body, stamp.moment) {
        Some(command) => command,
        None => unreachable!(),
    };
    match engine.accept(alloc, disk, run, command) {
        Accepted::Added => Answered::Replied(reply),
        Accepted::Full => refuse(alloc, stamp, Refused::plain(ErrorCode::NotEnoughSpace)),
        Accepted::Disk => Answered::Disk,
        Accepted::Memory => Answered::Memory,
        // never, since it was judged before
        Accepted::Refused(_) => Answered::Memory,
        Accepted::Closed => unreachable!(),
    }
}

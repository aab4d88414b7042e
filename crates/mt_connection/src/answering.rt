//! One message is read, answered, and its reply is sent.
ghost use Rattle.std.specs.Prelude.{◌≡◌, ◌≢◌, ℕ, false, true, is_some};
ghost use Rattle.mt_runner.specs.Account.{Tasks, told_time};
ghost use Rattle.mt_connection.specs.Sides.{side_of, sides};
ghost use Rattle.mt_connection.specs.Steps.{MovesOn, TakesMessage, plain};
ghost use Rattle.mt_opening.specs.Current.{EngineIsReady, Over};
ghost use Rattle.mt_opening.specs.History.{Bytes, History};
ghost use Rattle.mt_engine.specs.Ready.{EngineGoesOn};
ghost use Rattle.mt_model.specs.State.{State};

use crate::end::{ConnectionEnd, Step};
use crate::receive::{Received, receive};
use crate::refuse::refuse;
use crate::respond::respond;
use mt_api::{Answered, answer};
use mt_disk::Disk;
use mt_edge::{Both, Clock};
use mt_engine::Engine;
use mt_error::ErrorCode::{BadRequest, RequestEntityTooLarge};
use mt_http::{BodyStream, Ending, MessageEnd, limit_of};
use std::alloc::Global;

/// Reads one message from a link and answers it. Its interim reply is written before its body is read, and its reply once its
/// command is on the disk. Its moment is that of a call of the clock of its own, behind its head.
pub(crate) fn answer_message<D: Disk, C: Clock, L: Both>(
    alloc: Global,
    login: &str,
    engine: &mut Engine,
    disk: &mut D,
    clock: &mut C,
    link: &mut L,
) -> Step
    requires ready { EngineIsReady D.seen D.may_leave disk.old engine.old }
    // Over each history that the disk stands for, where it tells what it holds, and however tasks stand, which it leaves alone: what
    // became of the message, the history that it leads to, and what a crash at any moment of it leaves.
    ensures takes { (slots : ℕ) (tasks : Tasks) (base : State Bytes) (h : History) → Over (D.seen disk.old) engine.old base h → (k : History)
        × TakesMessage (plain (is_some (L.left link.old)) (is_some (D.seen disk.old)) (C.gives (C.rule clock.old)) login.now slots engine.old.log.limit base) (D.left_since disk.new) (D.may_leave disk.new)
        (sides (side_of L.left L.got L.read_faults L.write_faults link.old) h (D.seen disk.old) (D.faults disk.old) (told_time (is_some (D.seen disk.old)) (D.moment disk.old)) (C.asked clock.old) engine.old tasks) result
        (sides (side_of L.left L.got L.read_faults L.write_faults link.new) k (D.seen disk.new) (D.faults disk.new) (told_time (is_some (D.seen disk.old)) (D.moment disk.new)) (C.asked clock.new) engine.new tasks)
        × MovesOn D.seen D.moment D.left_since disk.old disk.new engine.new base h k }
    ensures goes_on { EngineGoesOn D.seen D.may_leave D.faults disk.old disk.new engine.old engine.new }
    ensures live { result ≢ Step.Over ConnectionEnd.Disk → result ≢ Step.Over ConnectionEnd.Memory → engine.new.log.closed ≡ false }
    ensures rule { C.rule clock.new ≡ C.rule clock.old }
    ensures stays { L.stays link.old link.new }
{
    let head = match receive(alloc, link) {
        Received::Head(head) => head,
        Received::SinkFault => return Step::Over(ConnectionEnd::SinkFault),
        Received::Nothing(MessageEnd::End) => return Step::Over(ConnectionEnd::Ended),
        Received::Nothing(MessageEnd::Truncated) => return Step::Over(ConnectionEnd::Truncated),
        Received::Nothing(MessageEnd::Bad) => {
            return refuse(alloc, engine, link, BadRequest, clock.now());
        }
        // no body was read
        Received::Nothing(MessageEnd::TooLarge) => unreachable!(),
        Received::Nothing(MessageEnd::SourceFault) => return Step::Over(ConnectionEnd::SourceFault),
        Received::Nothing(MessageEnd::Memory) => return Step::Over(ConnectionEnd::Memory),
    };
    let moment = clock.now();
    let mut body = BodyStream::new(link, &head, limit_of(&head));
    match answer(alloc, login, engine, disk, &head, &mut body, moment) {
        Answered::Replied(reply) => respond(alloc, engine, disk, link, reply, &head),
        Answered::Unfinished(Ending::Truncated) => Step::Over(ConnectionEnd::Truncated),
        Answered::Unfinished(Ending::Bad) => refuse(alloc, engine, link, BadRequest, moment),
        Answered::Unfinished(Ending::TooLarge) => {
            refuse(alloc, engine, link, RequestEntityTooLarge, moment)
        }
        // such a message is answered
        Answered::Unfinished(Ending::Whole) => unreachable!(),
        Answered::SourceFault => Step::Over(ConnectionEnd::SourceFault),
        Answered::Disk => Step::Over(ConnectionEnd::Disk),
        Answered::Memory => Step::Over(ConnectionEnd::Memory),
    }
}

//! The top call of the program.
ghost use Rattle.std.specs.Prelude.{◌≡◌, ◌≢◌, ◌<◌, ◌+◌, ◌++◌, ◌⊎◌, ℕ, [], false, true, is_some, IfSome, None, map, string_bytes};
ghost use Rattle.std.specs.Option.{ForSome};
ghost use Rattle.mt_base.specs.Counts.{Rose};
ghost use Rattle.mt_disk.specs.CrashModel.{IsAtRest, LeavesOnly};
ghost use Rattle.mt_log.specs.LogImage.{Fit, SameLog};
ghost use Rattle.mt_disk.specs.Files.{Files};
ghost use Rattle.mt_model.specs.CommandStep.{replay};
ghost use Rattle.mt_model.specs.Honest.{Honest};
ghost use Rattle.mt_model.specs.State.{State, first_state};
ghost use Rattle.mt_records.specs.Fate.{fate};
ghost use Rattle.mt_opening.specs.History.{Bytes, HasHistory, History};
ghost use Rattle.mt_opening.specs.Opening.{IsReadable, IsRefused, KeepsLogs};
ghost use Rattle.mt_opening.specs.declared.opening.Unreadable.{Unreadable};
ghost use Rattle.mt_runner.specs.Account.{account_side, tasks_of, told_time};
ghost use Rattle.mt_connection.specs.Outcomes.{Outcome, OutcomeAt};
ghost use Rattle.mt_connection.specs.Sides.{joined, link_side, side_of};
ghost use Rattle.mt_connection.specs.Transcript.{setting};
ghost use Rattle.mt_settings.specs.Words.{settings_of};
ghost use Rattle.mt_settings.specs.declared.fault.UsageFault.{UsageFault};
ghost use Rattle.mt_settings.specs.declared.settings.Settings.{Settings};
ghost use Rattle.mt_server.specs.Guarantees.{HasRun, HasServed, IsMeantIn, NothingLeft, scene, shop};
ghost use Rattle.mt_server.specs.Lines.{SaysLine, line_of, usage_line};
ghost use Rattle.mt_server.specs.Events.{door_side, size_of};
ghost use Rattle.mt_server.specs.Statuses.{Asked, IsAnswered, IsBroken, WantsServe, WantsService, WantsSession, code_of, most_messages};
ghost use Rattle.mt_server.specs.declared.status.Status.{Status};

use crate::run::run;
use mt_disk::Disk;
use mt_edge::{Clock, Door, Sink, Source};
use mt_spawn::Spawner;
use std::alloc::Global;

/// Runs the program on its words, and gives the status that it ends with:
///
/// | Status | Cause |
/// |---|---|
/// | 0 | a session: the source was read to its end, or to a message that closes; a serve: all links were served, and are over. No task is ready, and each job whose input has ended is done |
/// | 1 | the words are not of the grammar |
/// | 2 | the log cannot be read |
/// | 3, 4 | a session: the source, the sink failed, and counted it |
/// | 5 | the disk failed, and counted it |
/// | 6 | as 0, but tasks are left, since their spawner failed, and counted it |
/// | 7 | as 0, but tasks are left: they still run, or 1,048,576 turns were taken behind the last message or link, each of which added a command |
/// | 8 | memory was wanted; a serve: or 2 ^ 64 - 1 turns were taken and wakings came |
/// | 9 | a command that a turn had to add has no room in the log |
/// | 10 | a serve: the door failed before all links were taken, and counted it |
/// | 11 | a session: the source ended within a message |
/// | 12 | a session: no message stands at a place, or one that is too large; its refusal was written |
/// | 13 | a session: 16,777,216 messages were answered, and none closes |
///
/// The disk is to be at rest, and to have no second log where its Head is empty; each is asked only where it is told. Each link that
/// was taken from the door is to be over, and no child of the spawner is to live or to be held.
pub fn mantad<S: Source, K: Sink, D: Disk, P: Spawner, C: Clock, W: Door>(
    alloc: Global,
    words: &[String],
    source: &mut S,
    sink: &mut K,
    disk: &mut D,
    spawner: &mut P,
    clock: &mut C,
    door: &mut W,
) -> u8
    requires rest { IsAtRest D.seen D.may_leave disk.old }
    requires fit { ForSome (D.seen disk.old) Fit }
    requires door { W.over door.old + W.kept door.old ≡ W.taken door.old }
    requires none_kept { W.kept door.old ≡ 0 }
    requires idle { (P.seen spawner.old).live ≡ [] }
    requires free { P.held spawner.old ≡ None }

    // A session over each base and history that the disk stands for at entry: what was said, each reply durable from a moment of its
    // exchange on; durable at exit, and what a crash leaves at any moment.
    ensures run { (settings : Settings) → WantsSession (map string_bytes words.now) settings → (base : State Bytes) (h : History) → ForSome (D.seen disk.old) (HasHistory base h)
        → (end : Status) × (result ≡ code_of end) × (k : History) × (used : ℕ) ×
        HasRun (setting (is_some (S.left source.old)) (is_some (D.seen disk.old)) (C.gives (C.rule clock.old)) (P.gives (P.rule spawner.old)) settings.login settings.slots settings.log_limit base)
        (scene D.seen D.may_leave D.left_since disk.old (joined (link_side (S.left source.old) (K.got sink.old) (S.read_faults source.old) (K.write_faults sink.old))
        (account_side h (size_of (D.seen disk.old)) (D.faults disk.old) (told_time (is_some (D.seen disk.old)) (D.moment disk.old)) (C.asked clock.old) (tasks_of (P.seen spawner.old))))) end
        (scene D.seen D.may_leave D.left_since disk.new (joined (link_side (S.left source.new) (K.got sink.new) (S.read_faults source.new) (K.write_faults sink.new))
        (account_side k used (D.faults disk.new) (told_time (is_some (D.seen disk.old)) (D.moment disk.new)) (C.asked clock.new) (tasks_of (P.seen spawner.new))))) }
    // The same of a serve: the turns of the links of the door.
    ensures served { (settings : Settings) (connections : ℕ) → WantsServe (map string_bytes words.now) settings connections → (base : State Bytes) (h : History) → ForSome (D.seen disk.old) (HasHistory base h)
        → (end : Status) × (result ≡ code_of end) × (k : History) × (used : ℕ) ×
        HasServed (side_of W.Link.left W.Link.got W.Link.read_faults W.Link.write_faults) W.Link.stays
        (setting false (is_some (D.seen disk.old)) (C.gives (C.rule clock.old)) (P.gives (P.rule spawner.old)) settings.login settings.slots settings.log_limit base) connections
        (scene D.seen D.may_leave D.left_since disk.old (shop (account_side h (size_of (D.seen disk.old)) (D.faults disk.old) (told_time (is_some (D.seen disk.old)) (D.moment disk.old)) (C.asked clock.old) (tasks_of (P.seen spawner.old)))
        (door_side (W.waiting door.old) (W.given_back door.old) (W.taken door.old) (W.over door.old) (W.door_faults door.old)))) end
        (scene D.seen D.may_leave D.left_since disk.new (shop (account_side k used (D.faults disk.new) (told_time (is_some (D.seen disk.old)) (D.moment disk.new)) (C.asked clock.new) (tasks_of (P.seen spawner.new)))
        (door_side (W.waiting door.new) (W.given_back door.new) (W.taken door.new) (W.over door.new) (W.door_faults door.new)))) }

    // Whatever history an image of any moment has: it is honest, its state is lawful, and each of its finished jobs is what its phases mean
    // over its inputs, in the recorded order, each input read by one committed task; where what was there before was honest.
    ensures finished { (settings : Settings) → WantsService (map string_bytes words.now) settings → ForSome (D.seen disk.old) (λ files. (base : State Bytes) (h : History) → HasHistory base h files
        → (earlier : History) → replay first_state earlier ≡ base → Honest settings.login (P.gives (P.rule spawner.old)) (fate settings.login) (earlier ++ h)
        → LeavesOnly D.moment D.left_since disk.old disk.new (IsMeantIn settings.login (P.gives (P.rule spawner.old)) base earlier)) }

    // An early exit touches nothing but for its line.
    ensures early_usage { result ≡ 1 → (source.new ≡ source.old) × (disk.new ≡ disk.old) × (door.new ≡ door.old)
        × SaysLine usage_line (K.got sink.old) (K.got sink.new) (K.write_faults sink.old) (K.write_faults sink.new) }
    ensures early_unreadable { (settings : Settings) → WantsService (map string_bytes words.now) settings → result ≡ 2 → (source.new ≡ source.old) × (door.new ≡ door.old)
        × ((why : Unreadable) × SaysLine (line_of why) (K.got sink.old) (K.got sink.new) (K.write_faults sink.old) (K.write_faults sink.new)
        × ForSome (D.seen disk.old) (λ files. IsRefused files why × KeepsLogs D.seen D.may_leave disk.new files)) }
    // On a store that can't be read, whatever the status: its log stays at each moment, nothing is read, nothing written but the line.
    ensures untouched { (settings : Settings) → WantsService (map string_bytes words.now) settings → ForSome (D.seen disk.old) (λ files. (why : Unreadable) → IsRefused files why → (source.new ≡ source.old) × (door.new ≡ door.old)
        × (spawner.new ≡ spawner.old) × (result ≢ 2 → sink.new ≡ sink.old) × LeavesOnly D.moment D.left_since disk.old disk.new (SameLog files)) }

    // No child lives when it returns, and nothing that one left is held.
    ensures no_child_left { ((P.seen spawner.new).live ≡ []) × (P.held spawner.new ≡ None) }
    ensures started_nothing { (result ≡ 1) ⊎ (result ≡ 2) → spawner.new ≡ spawner.old }

    // After every status but 5 and 8 another run can follow on the disk; after 2 where the disk told at entry what it held.
    ensures rest { result ≢ 5 → result ≢ 8 → (result ≡ 2 → is_some (D.seen disk.old) ≡ true) → IsAtRest D.seen D.may_leave disk.new × ForSome (D.seen disk.new) Fit }

    // What is outside stays itself.
    ensures outside { S.source_stays source.old source.new × K.sink_stays sink.old sink.new × (C.rule clock.new ≡ C.rule clock.old) × (P.rule spawner.new ≡ P.rule spawner.old) }
    ensures outside_session { (settings : Settings) → WantsSession (map string_bytes words.now) settings → door.new ≡ door.old }
    ensures outside_serve { (settings : Settings) (connections : ℕ) → WantsServe (map string_bytes words.now) settings connections
        → (source.new ≡ source.old) × (result ≢ 2 → sink.new ≡ sink.old) }

    // 1 exactly by the words, 2 exactly by the disk; want of memory is the one free answer.
    ensures one { result ≡ 1 → (fault : UsageFault) × (settings_of (map string_bytes words.now) ≡ Err fault) }
    ensures one_exactly { (fault : UsageFault) → settings_of (map string_bytes words.now) ≡ Err fault → ((result ≡ 1) ⊎ (result ≡ 8)) × (source.new ≡ source.old) × (disk.new ≡ disk.old) × (door.new ≡ door.old)
        × ((sink.new ≡ sink.old) ⊎ (result ≡ 1)) × (spawner.new ≡ spawner.old) }
    ensures two_exactly { (settings : Settings) → WantsService (map string_bytes words.now) settings → ForSome (D.seen disk.old) (λ files. (why : Unreadable) → IsRefused files why → (result ≡ 2) ⊎ (result ≡ 5) ⊎ (result ≡ 8)) }

    // Behind 0 nothing is left to do: of the history of each image no task is ready, and each job whose input has ended is done.
    ensures zero_is_done { (settings : Settings) → WantsService (map string_bytes words.now) settings → result ≡ 0 → ForSome (D.seen disk.old) (λ files. (base : State Bytes) (h : History) → HasHistory base h files
        → (c : Files) → D.may_leave disk.new c → (k : History) → HasHistory base k c → NothingLeft (replay base k)) }

    // Where no count rose, a session whose store can be read ends as its bytes ask for, unless a turn had no room or memory was wanted; and a
    // serve has served all links.
    ensures session_complete { (settings : Settings) → WantsSession (map string_bytes words.now) settings → (files : Files) → D.seen disk.old ≡ Some files → IsReadable files
        → (Rose (S.read_faults source.old) (S.read_faults source.new) → ⊥) → (Rose (K.write_faults sink.old) (K.write_faults sink.new) → ⊥) → (Rose (D.faults disk.old) (D.faults disk.new) → ⊥)
        → (result ≡ 8) ⊎ (result ≡ 9) ⊎ ((o : Outcome) × IfSome (S.left source.old) (λ bytes. OutcomeAt most_messages bytes o) × Asked o result) }
    ensures serve_complete { (settings : Settings) (connections : ℕ) → WantsServe (map string_bytes words.now) settings connections → (files : Files) → D.seen disk.old ≡ Some files → IsReadable files
        → (Rose (D.faults disk.old) (D.faults disk.new) → ⊥) → (Rose (W.door_faults door.old) (W.door_faults door.new) → ⊥) → (IsAnswered result) ⊎ (result ≡ 8) ⊎ (result ≡ 9) }

    // 3, 4, 5, 6 and 10 only where a count rose; 3, 4, 11, 12 and 13 never of a serve, 10 never of a session.
    ensures three { result ≡ 3 → Rose (S.read_faults source.old) (S.read_faults source.new) }
    ensures four { result ≡ 4 → Rose (K.write_faults sink.old) (K.write_faults sink.new) }
    ensures five { result ≡ 5 → Rose (D.faults disk.old) (D.faults disk.new) }
    ensures six { result ≡ 6 → Rose (P.seen spawner.old).faults (P.seen spawner.new).faults }
    ensures of_serve { (settings : Settings) (connections : ℕ) → WantsServe (map string_bytes words.now) settings connections
        → (result ≡ 0) ⊎ (result ≡ 2) ⊎ (result ≡ 5) ⊎ (result ≡ 6) ⊎ (result ≡ 7) ⊎ (result ≡ 8) ⊎ (result ≡ 9) ⊎ (result ≡ 10) }
    ensures ten { result ≡ 10 → Rose (W.door_faults door.old) (W.door_faults door.new) × ((settings : Settings) (connections : ℕ) → WantsServe (map string_bytes words.now) settings connections
        → W.taken door.new < W.taken door.old + connections) }
    ensures links { (settings : Settings) (connections : ℕ) → WantsServe (map string_bytes words.now) settings connections → IsAnswered result
        → W.taken door.new ≡ W.taken door.old + connections }

    // Of a session 0, 6, 7, 11, 12 and 13 by the bytes of the source, and exactly so unless something broke.
    ensures zero { (settings : Settings) → WantsSession (map string_bytes words.now) settings → IsAnswered result → IfSome (S.left source.old) (λ bytes. OutcomeAt most_messages bytes Outcome.Closed) }
    ensures eleven { (settings : Settings) → WantsSession (map string_bytes words.now) settings → result ≡ 11 → IfSome (S.left source.old) (λ bytes. OutcomeAt most_messages bytes Outcome.CutShort) }
    ensures twelve { (settings : Settings) → WantsSession (map string_bytes words.now) settings → result ≡ 12 → IfSome (S.left source.old) (λ bytes. OutcomeAt most_messages bytes Outcome.Malformed) }
    ensures thirteen { (settings : Settings) → WantsSession (map string_bytes words.now) settings → result ≡ 13 → IfSome (S.left source.old) (λ bytes. OutcomeAt most_messages bytes Outcome.TooMany) }
    ensures by_bytes { (settings : Settings) → WantsSession (map string_bytes words.now) settings → IfSome (S.left source.old) (λ bytes. (o : Outcome) → OutcomeAt most_messages bytes o → IsBroken result ⊎ Asked o result) }
{
    run(alloc, words, source, sink, disk, spawner, clock, door).code()
}

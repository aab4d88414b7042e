//! What the words ask for is done: a session, or connections.
ghost use Rattle.std.specs.Prelude.{◌≡◌, ◌⊎◌, ℕ, false, is_some, map, string_bytes};
ghost use Rattle.std.specs.Option.{ForSome};
ghost use Rattle.mt_base.specs.Counts.{Rose};
ghost use Rattle.mt_model.specs.State.{State};
ghost use Rattle.mt_opening.specs.History.{Bytes, HasHistory, History};
ghost use Rattle.mt_runner.specs.Account.{account_side, tasks_of, told_time};
ghost use Rattle.mt_connection.specs.Sides.{joined, link_side, side_of};
ghost use Rattle.mt_connection.specs.Transcript.{setting};
ghost use Rattle.mt_settings.specs.Words.{settings_of};
ghost use Rattle.mt_settings.specs.declared.fault.UsageFault.{UsageFault};
ghost use Rattle.mt_settings.specs.declared.settings.Settings.{Settings};
ghost use Rattle.mt_server.specs.declared.status.ServeEnd.TheVariants.{NoLink};
ghost use Rattle.mt_server.specs.Guarantees.{HasRun, HasServed, scene, shop};
ghost use Rattle.mt_server.specs.Lines.{SaysLine, usage_line};
ghost use Rattle.mt_server.specs.Events.{door_side, size_of};
ghost use Rattle.mt_server.specs.Running.{DoorIsIdle, LeavesOutside, OutsideIsIdle, SaysOfStore, SessionHasCause};
ghost use Rattle.mt_server.specs.Statuses.{ByDoor, IsBegun, IsOfServe, IsOfSession, WantsServe, WantsSession};

use crate::line::say;
use crate::serve::serve;
use crate::session::session;
use crate::status::Status;
use mt_disk::Disk;
use mt_edge::{Clock, Door, Sink, Source};
use mt_runner::Runner;
use mt_settings::{Mode, Settings, SettingsError};
use mt_spawn::Spawner;
use std::alloc::Global;

// Reads the words, and does what they ask for.
pub(crate) fn run<S: Source, K: Sink, D: Disk, P: Spawner, C: Clock, W: Door>(
    alloc: Global,
    words: &[String],
    source: &mut S,
    sink: &mut K,
    disk: &mut D,
    spawner: &mut P,
    clock: &mut C,
    door: &mut W,
) -> Status
    requires outside { OutsideIsIdle D.seen D.may_leave P.seen P.held disk.old spawner.old }
    requires door { DoorIsIdle (W.taken door.old) (W.over door.old) (W.kept door.old) }
    ensures session { (settings : Settings) → WantsSession (map string_bytes words.now) settings → (base : State Bytes) (h : History) → ForSome (D.seen disk.old) (HasHistory base h) → (k : History) × (used : ℕ) ×
        HasRun (setting (is_some (S.left source.old)) (is_some (D.seen disk.old)) (C.gives (C.rule clock.old)) (P.gives (P.rule spawner.old)) settings.login settings.slots settings.log_limit base)
        (scene D.seen D.may_leave D.left_since disk.old (joined (link_side (S.left source.old) (K.got sink.old) (S.read_faults source.old) (K.write_faults sink.old))
        (account_side h (size_of (D.seen disk.old)) (D.faults disk.old) (told_time (is_some (D.seen disk.old)) (D.moment disk.old)) (C.asked clock.old) (tasks_of (P.seen spawner.old))))) result
        (scene D.seen D.may_leave D.left_since disk.new (joined (link_side (S.left source.new) (K.got sink.new) (S.read_faults source.new) (K.write_faults sink.new))
        (account_side k used (D.faults disk.new) (told_time (is_some (D.seen disk.old)) (D.moment disk.new)) (C.asked clock.new) (tasks_of (P.seen spawner.new))))) }
    ensures serve { (settings : Settings) (connections : ℕ) → WantsServe (map string_bytes words.now) settings connections → (base : State Bytes) (h : History) → ForSome (D.seen disk.old) (HasHistory base h) → (k : History) × (used : ℕ) ×
        HasServed (side_of W.Link.left W.Link.got W.Link.read_faults W.Link.write_faults) W.Link.stays
        (setting false (is_some (D.seen disk.old)) (C.gives (C.rule clock.old)) (P.gives (P.rule spawner.old)) settings.login settings.slots settings.log_limit base) connections
        (scene D.seen D.may_leave D.left_since disk.old (shop (account_side h (size_of (D.seen disk.old)) (D.faults disk.old) (told_time (is_some (D.seen disk.old)) (D.moment disk.old)) (C.asked clock.old) (tasks_of (P.seen spawner.old)))
        (door_side (W.waiting door.old) (W.given_back door.old) (W.taken door.old) (W.over door.old) (W.door_faults door.old)))) result
        (scene D.seen D.may_leave D.left_since disk.new (shop (account_side k used (D.faults disk.new) (told_time (is_some (D.seen disk.old)) (D.moment disk.new)) (C.asked clock.new) (tasks_of (P.seen spawner.new)))
        (door_side (W.waiting door.new) (W.given_back door.new) (W.taken door.new) (W.over door.new) (W.door_faults door.new)))) }
    ensures of_session { (settings : Settings) → WantsSession (map string_bytes words.now) settings → IsOfSession result × (door.new ≡ door.old) }
    ensures of_serve { (settings : Settings) (connections : ℕ) → WantsServe (map string_bytes words.now) settings connections → IsOfServe result × (source.new ≡ source.old) × (IsBegun result → sink.new ≡ sink.old) }
    ensures words { (fault : UsageFault) → settings_of (map string_bytes words.now) ≡ Err fault → ((result ≡ Status.Usage) ⊎ (result ≡ Status.OutOfMemory)) × (source.new ≡ source.old) × (disk.new ≡ disk.old) × (door.new ≡ door.old) × (spawner.new ≡ spawner.old) }
    ensures usage { result ≡ Status.Usage → ((fault : UsageFault) × (settings_of (map string_bytes words.now) ≡ Err fault)) × (source.new ≡ source.old) × (disk.new ≡ disk.old) × (door.new ≡ door.old)
        × (spawner.new ≡ spawner.old) × SaysLine usage_line (K.got sink.old) (K.got sink.new) (K.write_faults sink.old) (K.write_faults sink.new) }
    ensures store { SaysOfStore D.seen D.may_leave D.moment D.left_since K.got K.write_faults disk.old disk.new sink.old sink.new ((source.new ≡ source.old) × (door.new ≡ door.old) × (spawner.new ≡ spawner.old)) result }
    ensures cause { SessionHasCause S.left S.read_faults K.write_faults D.faults P.seen source.old source.new sink.old sink.new disk.old disk.new spawner.old spawner.new result }
    ensures outside { LeavesOutside D.seen D.may_leave P.seen P.held P.rule C.rule disk.old disk.new spawner.old spawner.new clock.old clock.new (S.source_stays source.old source.new × K.sink_stays sink.old sink.new) result }
    ensures by_door { (settings : Settings) (connections : ℕ) → WantsServe (map string_bytes words.now) settings connections → ByDoor result connections (W.taken door.old) (W.door_faults door.old) (W.taken door.new) (W.door_faults door.new) }
    ensures no_link { result ≡ Status.Serve NoLink → Rose (W.door_faults door.old) (W.door_faults door.new) }
{
    let settings = match Settings::read(alloc, words) {
        Ok(settings) => settings,
        Err(SettingsError::Usage(_)) => {
            say(sink, b"usage: mantad COMMAND [OPTIONS]\n");
            return Status::Usage;
        }
        Err(SettingsError::Memory) => return Status::OutOfMemory,
    };
    let login = settings.login.as_str();
    let limit = settings.log_limit;
    let mut runner = match Runner::new(alloc, login, settings.slots) {
        Ok(runner) => runner,
        Err(_) => return Status::OutOfMemory,
    };
    match &settings.mode {
        Mode::Session => session(
            alloc,
            login,
            limit,
            &mut runner,
            source,
            sink,
            disk,
            spawner,
            clock,
        ),
        Mode::Serve { connections, .. } => serve(
            alloc,
            login,
            limit,
            *connections,
            &mut runner,
            sink,
            disk,
            spawner,
            clock,
            door,
        ),
    }
}

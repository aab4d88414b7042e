//! A run of the program is a life of its store.
ghost use Rattle.std.specs.Prelude.{◌≡◌, ◌+◌, ℕ, [], false, is_some, None, Some, map, string_bytes};
ghost use Rattle.std.specs.Option.{ForSome};
ghost use Rattle.mt_connection.specs.Sides.{joined, link_side, side_of};
ghost use Rattle.mt_connection.specs.Transcript.{setting};
ghost use Rattle.mt_disk.specs.CrashModel.{IsAtRest};
ghost use Rattle.mt_disk.specs.Files.{Files};
ghost use Rattle.mt_headline.specs.Runs.{ChainsGoOn, IsServe, IsSession, NewStoresAreEmpty};
ghost use Rattle.mt_lives.specs.Lives.{HasWhole};
ghost use Rattle.mt_log.specs.LogImage.{Fit};
ghost use Rattle.mt_model.specs.CommandStep.{replay};
ghost use Rattle.mt_model.specs.State.{first_state};
ghost use Rattle.mt_opening.specs.History.{Bytes, HasHistory, History};
ghost use Rattle.mt_runner.specs.Account.{account_side, tasks_of, told_time};
ghost use Rattle.mt_server.specs.Events.{door_side, size_of};
ghost use Rattle.mt_server.specs.Guarantees.{scene, shop};
ghost use Rattle.mt_server.specs.Statuses.{WantsServe, WantsSession, code_of};
ghost use Rattle.mt_server.specs.declared.status.Status.{Status};
ghost use Rattle.mt_settings.specs.declared.settings.Settings.{Settings};

use mt_disk::Disk;
use mt_edge::{Clock, Door, Sink, Source};
use mt_server::mantad;
use mt_spawn::Spawner;
use std::alloc::Global;

/// Runs the program, over files that have a whole history. Each crash image at exit ends a life of the store with the replies of the transcript:
/// the premise of the next run, and a link of the chain that the headline is about.
pub fn mantad_is_a_life<S: Source, K: Sink, D: Disk, P: Spawner, C: Clock, W: Door>(
    alloc: Global,
    words: &[String],
    source: &mut S,
    sink: &mut K,
    disk: &mut D,
    spawner: &mut P,
    clock: &mut C,
    door: &mut W,
) -> u8
    requires rest { IsAtRest D.seen D.may_leave disk.old }
    requires fit { ForSome (D.seen disk.old) Fit }
    requires door { W.over door.old + W.kept door.old ≡ W.taken door.old }
    requires none_kept { W.kept door.old ≡ 0 }
    requires idle { (P.seen spawner.old).live ≡ [] }
    requires free { P.held spawner.old ≡ None }
    ensures session { (settings : Settings) → WantsSession (map string_bytes words.now) settings → (files : Files) → D.seen disk.old ≡ Some files → (before : History) (whole : HasWhole HasHistory before files)
        → (end : Status) × (result ≡ code_of end) × (k : History) × (used : ℕ) ×
        IsSession (setting (is_some (S.left source.old)) (is_some (D.seen disk.old)) (C.gives (C.rule clock.old)) (P.gives (P.rule spawner.old)) settings.login settings.slots settings.log_limit (replay first_state whole.earlier)) whole.earlier before
        (scene D.seen D.may_leave D.left_since disk.old (joined (link_side (S.left source.old) (K.got sink.old) (S.read_faults source.old) (K.write_faults sink.old))
        (account_side whole.rest (size_of (D.seen disk.old)) (D.faults disk.old) (told_time (is_some (D.seen disk.old)) (D.moment disk.old)) (C.asked clock.old) (tasks_of (P.seen spawner.old))))) end
        (scene D.seen D.may_leave D.left_since disk.new (joined (link_side (S.left source.new) (K.got sink.new) (S.read_faults source.new) (K.write_faults sink.new))
        (account_side k used (D.faults disk.new) (told_time (is_some (D.seen disk.old)) (D.moment disk.new)) (C.asked clock.new) (tasks_of (P.seen spawner.new))))) }
    ensures serve { (settings : Settings) (connections : ℕ) → WantsServe (map string_bytes words.now) settings connections → (files : Files) → D.seen disk.old ≡ Some files → (before : History) (whole : HasWhole HasHistory before files)
        → (end : Status) × (result ≡ code_of end) × (k : History) × (used : ℕ) ×
        IsServe (side_of W.Link.left W.Link.got W.Link.read_faults W.Link.write_faults) W.Link.stays
        (setting false (is_some (D.seen disk.old)) (C.gives (C.rule clock.old)) (P.gives (P.rule spawner.old)) settings.login settings.slots settings.log_limit (replay first_state whole.earlier)) whole.earlier before connections
        (scene D.seen D.may_leave D.left_since disk.old (shop (account_side whole.rest (size_of (D.seen disk.old)) (D.faults disk.old) (told_time (is_some (D.seen disk.old)) (D.moment disk.old)) (C.asked clock.old) (tasks_of (P.seen spawner.old)))
        (door_side (W.waiting door.old) (W.given_back door.old) (W.taken door.old) (W.over door.old) (W.door_faults door.old)))) end
        (scene D.seen D.may_leave D.left_since disk.new (shop (account_side k used (D.faults disk.new) (told_time (is_some (D.seen disk.old)) (D.moment disk.new)) (C.asked clock.new) (tasks_of (P.seen spawner.new)))
        (door_side (W.waiting door.new) (W.given_back door.new) (W.taken door.new) (W.over door.new) (W.door_faults door.new)))) }
{
    mantad(alloc, words, source, sink, disk, spawner, clock, door)
}

/// A run on what the run before it left is one more life of the chain, which begins with a new store: its files are empty, and it has no
/// command.
pub fn chains_go_on<P: Spawner>()
    ensures next { (children : P.Rule) (login : Bytes) → ChainsGoOn login (P.gives children) }
    ensures first { NewStoresAreEmpty }
{}

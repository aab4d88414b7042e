//! A session of the store's own over a drill's messages.
ghost use Rattle.std.specs.Prelude.{◌≡◌, ◌≤◌, ◌+◌, [], ◌∷◌, ◌++◌, Err, IfOk, OnOk, is_some, map, string_bytes, true};
ghost use Rattle.std.specs.Option.{ForSome};
ghost use Rattle.mt_base.specs.Counts.{NeverFell, Rose};
ghost use Rattle.mt_disk.specs.CrashModel.{IsAtRest, LeavesOnly};
ghost use Rattle.mt_disk.specs.Files.{Files};
ghost use Rattle.mt_edge.specs.Memory.{no_calls};
ghost use Rattle.mt_opening.specs.Current.{HasFront};
ghost use Rattle.mt_opening.specs.History.{Bytes, HasHistory, History};
ghost use Rattle.mt_gen.specs.Left.{left_of};
ghost use Rattle.mt_gen.specs.Messages.{drill_bytes};
ghost use Rattle.mt_log.specs.LogImage.{Fit};
ghost use Rattle.mt_model.specs.State.{first_state};
ghost use Rattle.mt_drill.specs.Drilled.{HasDrilled, session_words};
ghost use Rattle.mt_drill.specs.DrillLine.{replies_in};

use crate::end::Stopped;
use crate::replies::replies_in;
use mt_disk::Disk;
use mt_edge::{Clock, MemSink, NeverFails, NoDoor};
use mt_gen::{DrillWork, GenSource};
use mt_server::mantad;
use mt_spawn::{MemSpawner, Script};
use std::alloc::{AllocError, Global};

/// The room for a reply, in bytes. A drill's replies have some 230 bytes.
const REPLY_ROOM: usize = 512;

/// How many messages a drill has beside those of its objects: 16 directories, the job, its inputs, their end.
const OTHER_MESSAGES: usize = 19;

// Adds a word.
fn add_word(alloc: Global, words: &mut Vec<String>, word: &str) -> Result<(), AllocError>
    ensures { OnOk result (map string_bytes words.new.items ≡ map string_bytes words.old.items ++ word.now ∷ []) }
{
    words.push(String::from_str(alloc, word)?)?;
    Ok(())
}

// The words of a session of the account `l`. Its store is the disk that it is given.
fn session_words(alloc: Global) -> Result<Vec<String>, AllocError>
    ensures { IfOk result (λ words. map string_bytes words.items ≡ session_words) }
{
    let mut words = Vec::new(alloc);
    add_word(alloc, &mut words, "session")?;
    add_word(alloc, &mut words, "--login")?;
    add_word(alloc, &mut words, "l")?;
    add_word(alloc, &mut words, "--store")?;
    add_word(alloc, &mut words, "s")?;
    Ok(words)
}

// A session over the messages of a drill, whose children are its two commands: the number that it ended with.
fn session_over<D: Disk, C: Clock>(
    alloc: Global,
    words: &[String],
    source: &mut GenSource,
    sink: &mut MemSink,
    disk: &mut D,
    clock: &mut C,
    count: u32,
) -> u8
    requires rest { IsAtRest D.seen D.may_leave disk.old }
    requires fit { ForSome (D.seen disk.old) Fit }
    requires empty { ForSome (D.seen disk.old) (HasHistory first_state []) }
    requires words { map string_bytes words.now ≡ session_words }
    requires source { left_of source.old.count source.old.due source.old.text.items source.old.at ≡ drill_bytes count }
    requires sink { (sink.old.got ≡ []) × (sink.old.calls ≡ no_calls) }
    ensures served { is_some (D.seen disk.old) ≡ true → result ≡ 0 → (k : History)
        × HasDrilled D.seen D.may_leave D.left_since D.faults D.moment (C.gives (C.rule clock.old)) (C.asked clock.old) count k sink.new.got
        × ((c : Files) → D.may_leave disk.new c → HasHistory first_state k c) }
    ensures any_moment { is_some (D.seen disk.old) ≡ true → LeavesOnly D.moment D.left_since disk.old disk.new (λ c. HasFront first_state c []) }
    ensures tells { result ≡ 0 → is_some (D.seen disk.old) ≡ true → is_some (D.seen disk.new) ≡ true }
    ensures rest { result ≡ 0 → IsAtRest D.seen D.may_leave disk.new × ForSome (D.seen disk.new) Fit }
    ensures disk { result ≡ 5 → Rose (D.faults disk.old) (D.faults disk.new) }
    ensures faults { NeverFell (D.faults disk.old) (D.faults disk.new) }
    ensures rule { C.rule clock.new ≡ C.rule clock.old }
{
    let mut spawner = NeverFails {
        inner: MemSpawner::new(alloc, DrillWork, Script::new(alloc)),
    };
    let mut door = NoDoor::new();
    mantad(
        alloc,
        words,
        source,
        sink,
        disk,
        &mut spawner,
        clock,
        &mut door,
    )
}

/// Serves the messages of a drill of so many objects over an empty log, and runs its job. How many replies were written.
pub(crate) fn serve_drill<D: Disk, C: Clock>(
    alloc: Global,
    count: u32,
    disk: &mut D,
    clock: &mut C,
) -> Result<u64, Stopped>
    requires rest { IsAtRest D.seen D.may_leave disk.old }
    requires fit { ForSome (D.seen disk.old) Fit }
    requires empty { ForSome (D.seen disk.old) (HasHistory first_state []) }
    requires count { count ≤ 10000 }
    ensures served { is_some (D.seen disk.old) ≡ true → IfOk result (λ replies. (k : History) × (said : Bytes) × (replies ≡ replies_in said)
        × HasDrilled D.seen D.may_leave D.left_since D.faults D.moment (C.gives (C.rule clock.old)) (C.asked clock.old) count k said
        × ((c : Files) → D.may_leave disk.new c → HasHistory first_state k c)) }
    ensures any_moment { is_some (D.seen disk.old) ≡ true → LeavesOnly D.moment D.left_since disk.old disk.new (λ c. HasFront first_state c []) }
    ensures tells { OnOk result (is_some (D.seen disk.old) ≡ true → is_some (D.seen disk.new) ≡ true) }
    ensures rest { OnOk result (IsAtRest D.seen D.may_leave disk.new × ForSome (D.seen disk.new) Fit) }
    ensures disk { result ≡ Err Stopped.Disk → Rose (D.faults disk.old) (D.faults disk.new) }
    ensures faults { NeverFell (D.faults disk.old) (D.faults disk.new) }
    ensures rule { C.rule clock.new ≡ C.rule clock.old }
{
    let words = session_words(alloc)?;
    let mut source = GenSource::new(alloc, count)?;
    let mut sink = MemSink::new(alloc, (count as usize + OTHER_MESSAGES) * REPLY_ROOM)?;
    match session_over(alloc, &words, &mut source, &mut sink, disk, clock, count) {
        0 => Ok(replies_in(sink.written()) as u64),
        5 => Err(Stopped::Disk),
        _ => Err(Stopped::Memory),
    }
}

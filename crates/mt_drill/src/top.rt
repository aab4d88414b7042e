//! The drill.
ghost use Rattle.std.specs.Prelude.{◌≡◌, ◌⊎◌, ◌≤◌, ◌≢◌, [], Err, IfOk, is_some, true};
ghost use Rattle.std.specs.Option.{ForSome};
ghost use Rattle.mt_base.specs.Counts.{Rose};
ghost use Rattle.mt_disk.specs.CrashModel.{IsAtRest, LeavesOnly};
ghost use Rattle.mt_disk.specs.Files.{Files};
ghost use Rattle.mt_edge.specs.Stream.{GotMore};
ghost use Rattle.mt_opening.specs.Current.{HasFront};
ghost use Rattle.mt_opening.specs.History.{Bytes, HasHistory, History};
ghost use Rattle.mt_opening.specs.Opening.{IsReadable, IsRefused, KeepsLogs};
ghost use Rattle.mt_opening.specs.declared.opening.Unreadable.{Unreadable};
ghost use Rattle.mt_log.specs.LogImage.{Fit, SameLog};
ghost use Rattle.mt_model.specs.State.{State, first_state};
ghost use Rattle.mt_server.specs.Lines.{SaysLine, line_of};
ghost use Rattle.mt_drill.specs.DrillLine.{IsLineOf, not_empty_line, replies_in};
ghost use Rattle.mt_drill.specs.Drilled.{HasDrilled};
ghost use Rattle.mt_drill.specs.Logs.{HasNone, HasRecord};

use crate::end::{DrillEnd, Stopped};
use crate::line::line_of;
use crate::look::{Found, look};
use crate::session::serve_drill;
use mt_disk::Disk;
use mt_edge::{Clock, Sink, write_all};
use mt_opening::Unreadable;
use mt_server::{say, unreadable_line};
use std::alloc::Global;

// Makes the account of a drill on an empty log and runs its job: the line of it.
fn line_made<D: Disk, C: Clock>(
    alloc: Global,
    count: u32,
    disk: &mut D,
    clock: &mut C,
) -> Result<Vec<u8>, Stopped>
    requires rest { IsAtRest D.seen D.may_leave disk.old }
    requires fit { ForSome (D.seen disk.old) Fit }
    requires empty { ForSome (D.seen disk.old) (HasHistory first_state []) }
    requires count { count ≤ 10000 }
    ensures made { is_some (D.seen disk.old) ≡ true → IfOk result (λ line. (k : History) × (said : Bytes)
        × HasDrilled D.seen D.may_leave D.left_since D.faults D.moment (C.gives (C.rule clock.old)) (C.asked clock.old) count k said
        × IsLineOf count (replies_in said) k line.items × ((c : Files) → D.may_leave disk.new c → HasHistory first_state k c)) }
    ensures any_moment { is_some (D.seen disk.old) ≡ true → LeavesOnly D.moment D.left_since disk.old disk.new (λ c. HasFront first_state c []) }
    ensures disk { result ≡ Err Stopped.Disk → Rose (D.faults disk.old) (D.faults disk.new) }
    ensures rule { C.rule clock.new ≡ C.rule clock.old }
{
    let replies = serve_drill(alloc, count, disk, clock)?;
    line_of(alloc, disk, count, replies)
}

// Says why a log can't be read.
fn say_unreadable<K: Sink>(alloc: Global, sink: &mut K, why: &Unreadable) -> DrillEnd
    ensures said { result ≡ DrillEnd.Unreadable → SaysLine (line_of why.now) (K.got sink.old) (K.got sink.new) (K.write_faults sink.old) (K.write_faults sink.new) }
    ensures ends { (result ≡ DrillEnd.Unreadable) ⊎ (result ≡ DrillEnd.Memory) }
    ensures silent { result ≡ DrillEnd.Memory → sink.new ≡ sink.old }
    ensures stays { K.sink_stays sink.old sink.new }
{
    match unreadable_line(alloc, why) {
        Ok(line) => {
            say(sink, line.as_slice());
            DrillEnd::Unreadable
        }
        Err(_) => DrillEnd::Memory,
    }
}

// Says the line of an account.
fn say_line<K: Sink>(sink: &mut K, line: &[u8]) -> DrillEnd
    ensures done { result ≡ DrillEnd.Done → GotMore (K.got sink.old) line.now (K.got sink.new) }
    ensures sink { result ≢ DrillEnd.Done → (result ≡ DrillEnd.SinkFault) × Rose (K.write_faults sink.old) (K.write_faults sink.new) }
    ensures stays { K.sink_stays sink.old sink.new }
{
    match write_all(sink, line) {
        Ok(()) => DrillEnd::Done,
        Err(_) => DrillEnd::SinkFault,
    }
}

// A drill of an empty log.
fn drill_empty<K: Sink, D: Disk, C: Clock>(
    alloc: Global,
    count: u32,
    sink: &mut K,
    disk: &mut D,
    clock: &mut C,
) -> DrillEnd
    requires rest { IsAtRest D.seen D.may_leave disk.old }
    requires fit { ForSome (D.seen disk.old) Fit }
    requires empty { ForSome (D.seen disk.old) (HasHistory first_state []) }
    requires count { count ≤ 10000 }
    ensures drilled { is_some (D.seen disk.old) ≡ true → result ≡ DrillEnd.Done → (k : History) × (said line : Bytes)
        × HasDrilled D.seen D.may_leave D.left_since D.faults D.moment (C.gives (C.rule clock.old)) (C.asked clock.old) count k said
        × IsLineOf count (replies_in said) k line × GotMore (K.got sink.old) line (K.got sink.new)
        × ((c : Files) → D.may_leave disk.new c → HasHistory first_state k c) }
    ensures ends { (result ≡ DrillEnd.Done) ⊎ (result ≡ DrillEnd.SinkFault) ⊎ (result ≡ DrillEnd.DiskFault) ⊎ (result ≡ DrillEnd.Memory) }
    ensures any_moment { is_some (D.seen disk.old) ≡ true → LeavesOnly D.moment D.left_since disk.old disk.new (λ c. HasFront first_state c []) }
    ensures silent { (result ≡ DrillEnd.DiskFault) ⊎ (result ≡ DrillEnd.Memory) → sink.new ≡ sink.old }
    ensures four { result ≡ DrillEnd.SinkFault → Rose (K.write_faults sink.old) (K.write_faults sink.new) }
    ensures five { result ≡ DrillEnd.DiskFault → Rose (D.faults disk.old) (D.faults disk.new) }
    ensures outside { K.sink_stays sink.old sink.new × (C.rule clock.new ≡ C.rule clock.old) }
{
    match line_made(alloc, count, disk, clock) {
        Ok(line) => say_line(sink, line.as_slice()),
        Err(Stopped::Disk) => DrillEnd::DiskFault,
        Err(Stopped::Memory) => DrillEnd::Memory,
    }
}

/// Makes an account of so many objects and one job on an empty log, runs the job over children in memory, and says in one line what
/// the account has then:
///
/// | End | Cause |
/// |---|---|
/// | `Done` | the log was empty. The account was made and run, its job is done, and the line was written |
/// | `Unreadable` | the log can't be read. The line of a session on it was written |
/// | `SinkFault` | the sink failed within the line of the account, and counted it |
/// | `DiskFault` | the disk failed, and counted it |
/// | `NotEmpty` | the log has a record. `mantad: the log is not empty` was written |
/// | `Memory` | memory was wanted; or the session ended with another status than 0, or its job is not done, which no drill has shown |
///
/// A log that is not empty stays as it is. The disk is to be at rest, and to have no second log where its Head is empty; each is asked
/// only where it is told. A drill takes 512 bytes of memory a message, beside what a session takes.
pub fn drill<K: Sink, D: Disk, C: Clock>(
    alloc: Global,
    count: u32,
    sink: &mut K,
    disk: &mut D,
    clock: &mut C,
) -> DrillEnd
    requires rest { IsAtRest D.seen D.may_leave disk.old }
    requires fit { ForSome (D.seen disk.old) Fit }
    requires count { count ≤ 10000 }
    // The line says what the account has: behind a session over the drill's messages, each image has its history.
    ensures drilled { result ≡ DrillEnd.Done → ForSome (D.seen disk.old) (λ files. HasNone files × ((k : History) × (said line : Bytes)
        × HasDrilled D.seen D.may_leave D.left_since D.faults D.moment (C.gives (C.rule clock.old)) (C.asked clock.old) count k said
        × IsLineOf count (replies_in said) k line × GotMore (K.got sink.old) line (K.got sink.new)
        × ((c : Files) → D.may_leave disk.new c → HasHistory first_state k c))) }
    // Exactly a log with a record is refused as one, and stays as it is at each moment.
    ensures fourteen { result ≡ DrillEnd.NotEmpty → SaysLine not_empty_line (K.got sink.old) (K.got sink.new) (K.write_faults sink.old) (K.write_faults sink.new)
        × ForSome (D.seen disk.old) (λ files. IsReadable files × HasRecord files) }
    ensures fourteen_exactly { ForSome (D.seen disk.old) (λ files. HasRecord files → ((result ≡ DrillEnd.NotEmpty) ⊎ (result ≡ DrillEnd.Unreadable) ⊎ (result ≡ DrillEnd.DiskFault) ⊎ (result ≡ DrillEnd.Memory))
        × (IsReadable files → result ≢ DrillEnd.Unreadable) × LeavesOnly D.moment D.left_since disk.old disk.new (SameLog files)) }
    ensures two { (result ≡ DrillEnd.Unreadable) → (why : Unreadable) × SaysLine (line_of why) (K.got sink.old) (K.got sink.new) (K.write_faults sink.old) (K.write_faults sink.new)
        × ForSome (D.seen disk.old) (λ files. IsRefused files why × KeepsLogs D.seen D.may_leave disk.new files) }
    ensures two_exactly { ForSome (D.seen disk.old) (λ files. (why : Unreadable) → IsRefused files why → ((result ≡ DrillEnd.Unreadable) ⊎ (result ≡ DrillEnd.DiskFault) ⊎ (result ≡ DrillEnd.Memory))
        × LeavesOnly D.moment D.left_since disk.old disk.new (SameLog files)) }
    // Whatever the end, each image of each moment has a history with the one at entry in front.
    ensures any_moment { ForSome (D.seen disk.old) (λ files. (base : State Bytes) (h : History) → HasHistory base h files → LeavesOnly D.moment D.left_since disk.old disk.new (λ c. HasFront base c h)) }
    // Nothing is written but a line.
    ensures silent { (result ≡ DrillEnd.DiskFault) ⊎ (result ≡ DrillEnd.Memory) → sink.new ≡ sink.old }
    ensures four { result ≡ DrillEnd.SinkFault → Rose (K.write_faults sink.old) (K.write_faults sink.new) }
    ensures five { result ≡ DrillEnd.DiskFault → Rose (D.faults disk.old) (D.faults disk.new) }
    ensures outside { K.sink_stays sink.old sink.new × (C.rule clock.new ≡ C.rule clock.old) }
{
    match look(alloc, disk) {
        Found::Empty => drill_empty(alloc, count, sink, disk, clock),
        Found::Record => {
            say(sink, b"mantad: the log is not empty\n");
            DrillEnd::NotEmpty
        }
        Found::Unreadable(why) => say_unreadable(alloc, sink, &why),
        Found::Disk => DrillEnd::DiskFault,
        Found::Memory => DrillEnd::Memory,
    }
}

//! The bodies of a fate are stored in a run.
ghost use Rattle.std.specs.Prelude.{◌≡◌, ◌≢◌, ℕ, List, true};
ghost use Rattle.mt_base.specs.Counts.{NeverFell, Rose};
ghost use Rattle.mt_disk.specs.CrashModel.{LeavesOnly};
ghost use Rattle.mt_opening.specs.Current.{IsWriting};
ghost use Rattle.mt_opening.specs.History.{Bytes, HasHistory, History};
ghost use Rattle.mt_engine.specs.Ready.{EngineStays, RunGoesOn, RunIsReady};
ghost use Rattle.mt_model.specs.State.{State};
ghost use Rattle.mt_spawn.specs.Children.{SameLive};
ghost use Rattle.mt_tasks.specs.Storing.{FateAt, FateIn, Places, RangeAt, RangeIn, RecordAt, RecordIn, RecordsAt, RecordsIn, Stores};

use crate::stored::{Stored, emitted, good, keep, kept, range_end};
use md5::{Digest, Md5};
use mt_base::Sequence;
use mt_disk::Disk;
use mt_engine::Engine;
use mt_log::Run;
use mt_records::Range;
use mt_spawn::{PartSource, Spawner};
use mt_types::{Body, Fate, TaskRecord, TaskRecords};
use std::alloc::Global;

// Stores the bytes of a range of what is held.
fn store_range<D: Disk, P: Spawner>(
    alloc: Global,
    engine: &mut Engine,
    disk: &mut D,
    run: &mut Run,
    spawner: &mut P,
    range: Range,
) -> Stored<Body>
    requires ready { RunIsReady D.seen D.may_leave disk.old engine.old run.old }
    // Over any disk.
    ensures places { Places (RangeAt run.old run.new range) result }
    // Over one that tells what it holds.
    ensures stores { (base : State Bytes) (h : History) (qs : List (List ℕ)) → IsWriting (D.seen disk.old) engine.old run.old base h qs →
        Stores (RangeIn (P.told spawner.old) (D.seen disk.new) engine.new run.new base h qs range) result (D.seen disk.new) engine.new run.new base h qs }
    ensures any_moment { (base : State Bytes) (h : History) (qs : List (List ℕ)) → IsWriting (D.seen disk.old) engine.old run.old base h qs →
        LeavesOnly D.moment D.left_since disk.old disk.new (HasHistory base h) }
    ensures goes_on { RunGoesOn D.seen D.may_leave disk.new engine.new run.new }
    ensures keeps { EngineStays D.seen D.faults disk.old disk.new engine.old engine.new }
    ensures still_open { result ≢ Stored.Disk → engine.new ≡ engine.old }
    ensures closed { result ≡ Stored.Disk → engine.new.log.closed ≡ true }
    ensures disk { result ≡ Stored.Disk → Rose (D.faults disk.old) (D.faults disk.new) }
    ensures failed { result ≡ Stored.Failed → Rose (P.seen spawner.old).faults (P.seen spawner.new).faults }
    ensures same { SameLive (P.seen spawner.old) (P.seen spawner.new) }
    ensures faults { NeverFell (P.seen spawner.old).faults (P.seen spawner.new).faults }
    ensures held { P.held spawner.new ≡ P.held spawner.old }
    ensures told { P.told spawner.new ≡ P.told spawner.old }
    ensures rule { P.rule spawner.new ≡ P.rule spawner.old }
{
    let end = range.from.saturating_add(range.len);
    let mut source = PartSource::new(spawner, range.part, range.from, end);
    let mut sum = Md5::new();
    let stored = engine.store_body(alloc, disk, run, &mut source, &mut sum);
    range_end(stored, range.len)
}

// Stores the body of a record, if it has one.
fn store_record<D: Disk, P: Spawner>(
    alloc: Global,
    engine: &mut Engine,
    disk: &mut D,
    run: &mut Run,
    spawner: &mut P,
    given: TaskRecord<Range>,
) -> Stored<TaskRecord<Body>>
    requires ready { RunIsReady D.seen D.may_leave disk.old engine.old run.old }
    // Over any disk.
    ensures places { Places (RecordAt run.old run.new given) result }
    // Over one that tells what it holds.
    ensures stores { (base : State Bytes) (h : History) (qs : List (List ℕ)) → IsWriting (D.seen disk.old) engine.old run.old base h qs →
        Stores (RecordIn (P.told spawner.old) (D.seen disk.new) engine.new run.new base h qs given) result (D.seen disk.new) engine.new run.new base h qs }
    ensures any_moment { (base : State Bytes) (h : History) (qs : List (List ℕ)) → IsWriting (D.seen disk.old) engine.old run.old base h qs →
        LeavesOnly D.moment D.left_since disk.old disk.new (HasHistory base h) }
    ensures goes_on { RunGoesOn D.seen D.may_leave disk.new engine.new run.new }
    ensures keeps { EngineStays D.seen D.faults disk.old disk.new engine.old engine.new }
    ensures still_open { result ≢ Stored.Disk → engine.new ≡ engine.old }
    ensures closed { result ≡ Stored.Disk → engine.new.log.closed ≡ true }
    ensures disk { result ≡ Stored.Disk → Rose (D.faults disk.old) (D.faults disk.new) }
    ensures failed { result ≡ Stored.Failed → Rose (P.seen spawner.old).faults (P.seen spawner.new).faults }
    ensures same { SameLive (P.seen spawner.old) (P.seen spawner.new) }
    ensures faults { NeverFell (P.seen spawner.old).faults (P.seen spawner.new).faults }
    ensures held { P.held spawner.new ≡ P.held spawner.old }
    ensures told { P.told spawner.new ≡ P.told spawner.old }
    ensures rule { P.rule spawner.new ≡ P.rule spawner.old }
{
    match given {
        TaskRecord::Emit {
            place,
            reducer,
            body,
        } => {
            let stored = store_range(alloc, engine, disk, run, spawner, body);
            emitted(place, reducer, stored)
        }
        TaskRecord::Keep { place, body } => {
            let stored = store_range(alloc, engine, disk, run, spawner, body);
            kept(place, stored)
        }
        TaskRecord::Ref { name } => Stored::Whole(TaskRecord::Ref { name }),
    }
}

// Stores the bodies of records, in their order.
fn store_records<D: Disk, P: Spawner>(
    alloc: Global,
    engine: &mut Engine,
    disk: &mut D,
    run: &mut Run,
    spawner: &mut P,
    records: Vec<TaskRecord<Range>>,
) -> Stored<TaskRecords<Body>>
    requires ready { RunIsReady D.seen D.may_leave disk.old engine.old run.old }
    // Over any disk.
    ensures places { Places (RecordsAt run.old run.new records.items) result }
    // Over one that tells what it holds.
    ensures stores { (base : State Bytes) (h : History) (qs : List (List ℕ)) → IsWriting (D.seen disk.old) engine.old run.old base h qs →
        Stores (RecordsIn (P.told spawner.old) (D.seen disk.new) engine.new run.new base h qs records.items) result (D.seen disk.new) engine.new run.new base h qs }
    ensures any_moment { (base : State Bytes) (h : History) (qs : List (List ℕ)) → IsWriting (D.seen disk.old) engine.old run.old base h qs →
        LeavesOnly D.moment D.left_since disk.old disk.new (HasHistory base h) }
    ensures goes_on { RunGoesOn D.seen D.may_leave disk.new engine.new run.new }
    ensures keeps { EngineStays D.seen D.faults disk.old disk.new engine.old engine.new }
    ensures still_open { result ≢ Stored.Disk → engine.new ≡ engine.old }
    ensures closed { result ≡ Stored.Disk → engine.new.log.closed ≡ true }
    ensures disk { result ≡ Stored.Disk → Rose (D.faults disk.old) (D.faults disk.new) }
    ensures failed { result ≡ Stored.Failed → Rose (P.seen spawner.old).faults (P.seen spawner.new).faults }
    ensures same { SameLive (P.seen spawner.old) (P.seen spawner.new) }
    ensures faults { NeverFell (P.seen spawner.old).faults (P.seen spawner.new).faults }
    ensures held { P.held spawner.new ≡ P.held spawner.old }
    ensures told { P.told spawner.new ≡ P.told spawner.old }
    ensures rule { P.rule spawner.new ≡ P.rule spawner.old }
{
    let mut done = Vec::new(alloc);
    for one in records {
        let stored = store_record(alloc, engine, disk, run, spawner, one);
        if let Some(end) = keep(&mut done, stored) {
            return end;
        }
    }
    Stored::Whole(Sequence::from_vec(done))
}

/// Stores the bodies of a fate, each streamed by pieces.
pub(crate) fn store_fate<D: Disk, P: Spawner>(
    alloc: Global,
    engine: &mut Engine,
    disk: &mut D,
    run: &mut Run,
    spawner: &mut P,
    fate: Fate<Range>,
) -> Stored<Fate<Body>>
    requires ready { RunIsReady D.seen D.may_leave disk.old engine.old run.old }
    // Over any disk.
    ensures places { Places (FateAt run.old run.new fate) result }
    // Over one that tells what it holds.
    ensures stores { (base : State Bytes) (h : History) (qs : List (List ℕ)) → IsWriting (D.seen disk.old) engine.old run.old base h qs →
        Stores (FateIn (P.told spawner.old) (D.seen disk.new) engine.new run.new base h qs fate) result (D.seen disk.new) engine.new run.new base h qs }
    ensures any_moment { (base : State Bytes) (h : History) (qs : List (List ℕ)) → IsWriting (D.seen disk.old) engine.old run.old base h qs →
        LeavesOnly D.moment D.left_since disk.old disk.new (HasHistory base h) }
    ensures goes_on { RunGoesOn D.seen D.may_leave disk.new engine.new run.new }
    ensures keeps { EngineStays D.seen D.faults disk.old disk.new engine.old engine.new }
    ensures still_open { result ≢ Stored.Disk → engine.new ≡ engine.old }
    ensures closed { result ≡ Stored.Disk → engine.new.log.closed ≡ true }
    ensures disk { result ≡ Stored.Disk → Rose (D.faults disk.old) (D.faults disk.new) }
    ensures failed { result ≡ Stored.Failed → Rose (P.seen spawner.old).faults (P.seen spawner.new).faults }
    ensures same { SameLive (P.seen spawner.old) (P.seen spawner.new) }
    ensures faults { NeverFell (P.seen spawner.old).faults (P.seen spawner.new).faults }
    ensures held { P.held spawner.new ≡ P.held spawner.old }
    ensures told { P.told spawner.new ≡ P.told spawner.old }
    ensures rule { P.rule spawner.new ≡ P.rule spawner.old }
{
    match fate {
        Fate::Good(records) => {
            let stored = store_records(alloc, engine, disk, run, spawner, records.into_vec());
            good(stored)
        }
        Fate::Bad {
            failure,
            status,
            stderr,
        } => Stored::Whole(Fate::Bad {
            failure,
            status,
            stderr,
        }),
    }
}

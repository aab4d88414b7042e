//! The engine: a log, and the state that it stands for.
ghost use Rattle.std.specs.Prelude.{◌≡◌, ◌≢◌, ◌⊎◌, ◌↔◌, ◌<◌, ◌^◌, ◌≤◌, ◌+◌, [], ◌∷◌, ◌++◌, ℕ, List, length, true, false, IfOk, IsTrue};
ghost use Rattle.std.specs.Option.{ForSome};
ghost use Rattle.md5.specs.Md5.{Holds};
ghost use Rattle.mt_base.specs.Counts.{NeverFell, Rose};
ghost use Rattle.mt_codec.specs.Spelling.{HasSpelling, IsWithinLimits, spelling};
ghost use Rattle.mt_disk.specs.CrashModel.{LeavesOnly};
ghost use Rattle.mt_log.specs.LogImage.{IsBeforeOrAfter};
ghost use Rattle.mt_log.specs.LogState.{Stands, told};
ghost use Rattle.mt_body.specs.Storing.{Stores};
ghost use Rattle.mt_body.specs.Stored.{IsStored, bytes_of};
ghost use Rattle.mt_model.specs.Bodies.{OfCommand};
ghost use Rattle.mt_model.specs.Keeping.{KeepsLimits};
ghost use Rattle.mt_model.specs.Lawful.{Lawful};
ghost use Rattle.mt_model.specs.State.{State};
ghost use Rattle.mt_types.specs.Kinds.{kind_of};
ghost use Rattle.mt_types.specs.Values.{command_with};
ghost use Rattle.mt_types.specs.declared.command.Command.{Command};
ghost use Rattle.mt_types.specs.declared.limits.TheConstants.{MOST_COMMANDS};
ghost use Rattle.mt_account.specs.Taken.{IsTaken};
ghost use Rattle.mt_opening.specs.Current.{IsBetween, IsCurrent, IsWriting};
ghost use Rattle.mt_opening.specs.History.{Bytes, HasHistory, History};
ghost use Rattle.mt_engine.specs.Accepting.{Accepts, Decided, Drops, Ends, HasRoomFor, Reaches, StoresBody, Takes, closed};
ghost use Rattle.mt_engine.specs.Ready.{EngineStays, RunGoesOn, RunIsReady};

use crate::publish::{RunEnd, end_log_run, publish};
use md5::Md5;
use mt_account::{Account, has_spelling};
use mt_body::{Storing, store};
use mt_codec::encode;
use mt_disk::Disk;
use mt_edge::Source;
use mt_jobs::Jobs;
use mt_log::{AppendError, Log, Run};
use mt_tree::Tree;
use mt_types::{Body, Command, MOST_COMMANDS, Refusal};
use std::alloc::{AllocError, Global};
use std::marker::Model;

/// A payload has at most so many bytes, whose number has four.
const MOST_BYTES: u64 = 4_294_967_295;

/// A log and the state of the account that it stands for, over references to bodies in it. Contracts see both.
#[derive(Drop)]
pub struct Engine {
    pub(crate) log: Log,
    pub(crate) account: Account,
}

impl Model for Engine {
    ghost use Rattle.mt_opening.specs.Current.{EngineState};

    ghost Value = { EngineState };

    ghost view = { λ e. record { log = e.log; state = e.account } };
}

/// What became of a command.
#[derive(Clone, Copy, Debug, PartialEq, Eq)]
pub enum Accepted {
    /// It is on the disk, and the state is that after it.
    Added,
    /// The state does not take it. The pieces of the run stay.
    Refused(Refusal),
    /// The log would pass its limit, or has all the commands that it may have. The pieces of the run stay.
    Full,
    /// The disk has failed. The log is closed, and its disk has the run and the command, or nothing of both.
    Disk,
    /// Out of memory. The log is closed, and its disk has nothing of the run.
    Memory,
    /// The log was closed before, and nothing was done.
    Closed,
}

// Whether pieces of so many bytes and a record of a payload have room behind a log, under a limit.
fn fits(used: u64, limit: u64, pieces: u64, payload: u64) -> bool
    ensures { IsTrue result ↔ (used + (pieces + 21 + payload) ≤ limit) }
{
    used <= limit
        && pieces <= limit - used
        && 21 <= limit - used - pieces
        && payload <= limit - used - pieces - 21
}

impl Engine {
    /// What stands at the paths of the account: a lawful state within its limits.
    pub fn tree(&self) -> &Tree<Body>
        ensures rows { result.now ≡ self.now.state.rows }
        ensures lawful { Lawful self.now.state }
        ensures limits { KeepsLimits self.now.state }
    {
        self.account.tree()
    }

    /// The jobs of the account: those of a lawful state within its limits.
    pub fn jobs(&self) -> &Jobs<Body>
        ensures jobs { result.now ≡ self.now.state.jobs }
        ensures lawful { Lawful self.now.state }
        ensures limits { KeepsLimits self.now.state }
    {
        self.account.jobs()
    }

    /// The number of commands so far, 2 ^ 50 - 1 at most.
    pub fn position(&self) -> u64
        ensures count { result ≡ self.now.state.count }
        ensures most { result ≤ MOST_COMMANDS }
    {
        self.account.count()
    }

    /// The length of the log in bytes.
    pub fn used(&self) -> u64
        ensures { result ≡ self.now.log.gate + 1 }
    {
        self.log.len()
    }

    /// How many bytes the log may have.
    pub fn limit(&self) -> u64
        ensures { result ≡ self.now.log.limit }
    {
        self.log.limit()
    }

    /// Whether the engine takes no more, since a call of the disk failed or memory was wanting. It is to be opened again.
    pub fn is_closed(&self) -> bool
        ensures { result ≡ self.now.log.closed }
    {
        self.log.is_closed()
    }

    /// Whether the log is of the old version. Such an engine is read, and gets no run.
    pub fn is_old(&self) -> bool
        ensures { result ≡ self.now.log.is_old }
    {
        self.log.is_old()
    }

    /// Whether the log has room for a command behind pieces of so many bytes, and the account for one more. The command is spelled
    /// for that, with whatever bodies it has, and nothing is written.
    pub fn has_room(
        &self,
        alloc: Global,
        pieces: u64,
        command: &Command<Body>,
    ) -> Result<bool, AllocError>
        requires limits { IsWithinLimits command.now }
        ensures { IfOk result (λ b. IsTrue b ↔ HasRoomFor self.now pieces command.now) }
    {
        let payload = encode(alloc, command)?;
        if self.account.count() == MOST_COMMANDS {
            return Ok(false);
        }
        Ok(fits(
            self.log.len(),
            self.log.limit(),
            pieces,
            payload.len() as u64,
        ))
    }

    /// Begins a run: bodies may be stored in it, and then a command ends it. The engine is not to be used for another until then.
    pub fn begin_run<D: Disk>(&self, disk: &D) -> Run
        requires stands { Stands D.seen D.may_leave disk.now self.now.log }
        requires version { self.now.log.closed ≡ false → self.now.log.is_old ≡ false }
        ensures place { result ≡ record { next = self.now.log.gate } }
        ensures goes_on { RunGoesOn D.seen D.may_leave disk.now self.now result }
        ensures writing { (base : State Bytes) (h : History) → IsCurrent (D.seen disk.now) self.now base h →
            ForSome (told (D.seen disk.now)) (λ ps. IsWriting (D.seen disk.now) self.now result base h ps) }
    {
        self.log.begin_run(disk)
    }

    /// Stores a body from a source in a run, as `store` of mt_body does. Nothing of it counts before a command ends the run.
    pub fn store_body<D: Disk, S: Source>(
        &mut self,
        alloc: Global,
        disk: &mut D,
        run: &mut Run,
        source: &mut S,
        sum: &mut Md5,
    ) -> Storing
        requires ready { RunIsReady D.seen D.may_leave disk.old self.old run.old }
        requires fresh { Holds sum.old [] }
        // Over any disk.
        ensures stores { Stores result (S.left source.old) (S.left source.new) sum.new (D.seen disk.old) (D.seen disk.new) self.old.log self.new.log run.old run.new }
        ensures state { self.new.state ≡ self.old.state }
        // Over one that tells what it holds.
        ensures body { (base : State Bytes) (h : History) (qs : List (List ℕ)) → IsWriting (D.seen disk.old) self.old run.old base h qs →
            StoresBody result (S.left source.old) (S.left source.new) sum.new (D.seen disk.new) self.new run.old run.new base h qs }
        // A crash at any moment of the call leaves the history of before.
        ensures any_moment { (base : State Bytes) (h : History) (qs : List (List ℕ)) → IsWriting (D.seen disk.old) self.old run.old base h qs →
            LeavesOnly D.moment D.left_since disk.old disk.new (HasHistory base h) }
        ensures goes_on { RunGoesOn D.seen D.may_leave disk.new self.new run.new }
        ensures keeps { EngineStays D.seen D.faults disk.old disk.new self.old self.new }
        ensures closed { result ≡ Storing.Disk → self.new.log.closed ≡ true }
        ensures still_open { result ≢ Storing.Disk → self.new ≡ self.old }
        ensures disk { result ≡ Storing.Disk → Rose (D.faults disk.old) (D.faults disk.new) }
        ensures failed { result ≡ Storing.SourceFault → Rose (S.read_faults source.old) (S.read_faults source.new) }
        ensures memory { result ≡ Storing.Memory → (disk.new ≡ disk.old) × (source.new ≡ source.old) × (sum.new ≡ sum.old) }
        ensures reads { NeverFell (S.read_faults source.old) (S.read_faults source.new) }
        ensures stays { S.source_stays source.old source.new }
    {
        store(alloc, &mut self.log, disk, run, source, sum)
    }

    /// Ends a run without a command. Its pieces stay, and the history is that of before.
    pub fn end_run<D: Disk>(&mut self, disk: &mut D, run: Run) -> RunEnd
        requires ready { RunIsReady D.seen D.may_leave disk.old self.old run }
        ensures ends { Ends result self.old run self.new }
        ensures current { (base : State Bytes) (h : History) (qs : List (List ℕ)) → IsWriting (D.seen disk.old) self.old run base h qs →
            result ≡ RunEnd.Done → IsCurrent (D.seen disk.new) self.new base h }
        ensures any_moment { (base : State Bytes) (h : History) (qs : List (List ℕ)) → IsWriting (D.seen disk.old) self.old run base h qs →
            LeavesOnly D.moment D.left_since disk.old disk.new (HasHistory base h) }
        ensures stands { Stands D.seen D.may_leave disk.new self.new.log }
        ensures keeps { EngineStays D.seen D.faults disk.old disk.new self.old self.new }
        ensures disk { result ≡ RunEnd.Disk → Rose (D.faults disk.old) (D.faults disk.new) }
    {
        end_log_run(&mut self.log, disk, run)
    }

    /// Gives a run up. What was written of it is not read, and the next run is written over it. One call of the disk, and none for
    /// a run that took nothing.
    pub fn drop_run<D: Disk>(&mut self, disk: &mut D, run: Run) -> RunEnd
        requires ready { RunIsReady D.seen D.may_leave disk.old self.old run }
        ensures drops { Drops result self.old self.new }
        ensures same { result ≡ RunEnd.Done → D.seen disk.new ≡ D.seen disk.old }
        ensures current { (base : State Bytes) (h : History) (qs : List (List ℕ)) → IsWriting (D.seen disk.old) self.old run base h qs →
            result ≡ RunEnd.Done → IsCurrent (D.seen disk.new) self.new base h }
        ensures any_moment { (base : State Bytes) (h : History) (qs : List (List ℕ)) → IsWriting (D.seen disk.old) self.old run base h qs →
            LeavesOnly D.moment D.left_since disk.old disk.new (HasHistory base h) }
        ensures stands { Stands D.seen D.may_leave disk.new self.new.log }
        ensures keeps { EngineStays D.seen D.faults disk.old disk.new self.old self.new }
        ensures disk { result ≡ RunEnd.Disk → Rose (D.faults disk.old) (D.faults disk.new) }
    {
        match self.log.drop_run(disk, run) {
            Ok(()) => RunEnd::Done,
            Err(AppendError::Disk) => RunEnd::Disk,
            Err(AppendError::Closed | AppendError::Full) => unreachable!(),
        }
    }

    /// Ends a run with a command on rows or jobs, whose bodies were stored in the run or before it: it is added, and the state is that after
    /// it, or nothing of it is. What is Full is known before the state changes, and all memory is taken before the disk is called.
    pub fn accept<D: Disk>(
        &mut self,
        alloc: Global,
        disk: &mut D,
        run: Run,
        command: Command<Body>,
    ) -> Accepted
        requires ready { RunGoesOn D.seen D.may_leave disk.old self.old run }
        requires kind { IsTaken (kind_of command) }
        requires limits { IsWithinLimits command }
        // Over any disk.
        ensures decided { Decided result self.old run command self.new }
        // Over one that tells what it holds.
        ensures accepts { (base : State Bytes) (h : History) (qs : List (List ℕ)) → IsWriting (D.seen disk.old) self.old run base h qs → OfCommand (IsStored qs) command →
            Accepts result (command_with (bytes_of qs) command) (D.seen disk.new) self.new base h }
        // A crash at any moment of the call leaves the history of before, or that with the command.
        ensures any_moment { (base : State Bytes) (h : History) (qs : List (List ℕ)) → IsWriting (D.seen disk.old) self.old run base h qs → OfCommand (IsStored qs) command →
            (k : History) × Reaches result self.old run command (command_with (bytes_of qs) command) h k × LeavesOnly D.moment D.left_since disk.old disk.new (IsBetween base h k) }
        ensures stands { Stands D.seen D.may_leave disk.new self.new.log }
        ensures keeps { EngineStays D.seen D.faults disk.old disk.new self.old self.new }
        ensures disk { result ≡ Accepted.Disk → Rose (D.faults disk.old) (D.faults disk.new) }
        ensures closed { self.old.log.closed ≡ true → result ≡ Accepted.Closed }
        ensures unchanged { result ≡ Accepted.Closed → disk.new ≡ disk.old }
        ensures memory { result ≡ Accepted.Memory → disk.new ≡ disk.old }
    {
        if self.log.is_closed() {
            return Accepted::Closed;
        }
        if let Err(refusal) = self.account.judge(&command) {
            return match self.end_run(disk, run) {
                RunEnd::Done => Accepted::Refused(refusal),
                RunEnd::Disk => Accepted::Disk,
            };
        }
        let payload = match encode(alloc, &command) {
            Ok(payload) => payload,
            Err(AllocError) => return self.give_up(),
        };
        if self.account.count() == MOST_COMMANDS
            || !self.log.has_room_in_run(&run, payload.len() as u64)
        {
            return match self.end_run(disk, run) {
                RunEnd::Done => Accepted::Full,
                RunEnd::Disk => Accepted::Disk,
            };
        }
        if payload.len() as u64 > MOST_BYTES {
            return self.give_up();
        }
        has_spelling(&command);
        self.add(alloc, disk, run, command, payload.as_slice())
    }

    // Closes the engine for want of memory: what its log has taken of a run is not to count.
    fn give_up(&mut self) -> Accepted
        ensures { (result ≡ Accepted.Memory) × (self.new ≡ closed self.old) }
    {
        self.log.close();
        Accepted::Memory
    }

    // Adds a command that the state takes and that has room.
    fn add<D: Disk>(
        &mut self,
        alloc: Global,
        disk: &mut D,
        run: Run,
        command: Command<Body>,
        payload: &[u8],
    ) -> Accepted
        requires ready { RunIsReady D.seen D.may_leave disk.old self.old run }
        requires kind { IsTaken (kind_of command) }
        requires spelled { HasSpelling command }
        requires payload { payload.now ≡ spelling command }
        requires short { length payload.now < 2 ^ 32 }
        requires takes { Takes self.old run command }
        ensures decided { Decided result self.old run command self.new }
        ensures accepts { (base : State Bytes) (h : History) (qs : List (List ℕ)) → IsWriting (D.seen disk.old) self.old run base h qs → OfCommand (IsStored qs) command →
            Accepts result (command_with (bytes_of qs) command) (D.seen disk.new) self.new base h }
        ensures any_moment { (base : State Bytes) (h : History) (qs : List (List ℕ)) → IsWriting (D.seen disk.old) self.old run base h qs → OfCommand (IsStored qs) command →
            (k : History) × Reaches result self.old run command (command_with (bytes_of qs) command) h k × LeavesOnly D.moment D.left_since disk.old disk.new (IsBetween base h k) }
        ensures stands { Stands D.seen D.may_leave disk.new self.new.log }
        ensures keeps { EngineStays D.seen D.faults disk.old disk.new self.old self.new }
        ensures only { (result ≡ Accepted.Added) ⊎ (result ≡ Accepted.Disk) ⊎ (result ≡ Accepted.Memory) }
        ensures disk { result ≡ Accepted.Disk → Rose (D.faults disk.old) (D.faults disk.new) }
        ensures memory { result ≡ Accepted.Memory → disk.new ≡ disk.old }
    {
        match self.account.change(alloc, command) {
            Ok(()) => {}
            Err(AllocError) => return self.give_up(),
        }
        match publish(&mut self.log, disk, run, payload) {
            RunEnd::Done => Accepted::Added,
            RunEnd::Disk => Accepted::Disk,
        }
    }
}

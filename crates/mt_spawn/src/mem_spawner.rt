//! A spawner in memory, by a script.
use crate::running::Running;
use crate::{Begun, Order, Part, Spawner, Ticket, Waited, Work};
use mt_edge::{ReadStep, Source};
use std::alloc::Global;

/// What becomes of the calls of a spawner in memory. Starts, waits and reads are counted from 0.
#[derive(Drop)]
pub struct Script {
    /// Of each start, how many waits in vain its child takes; none of those past the list.
    pub waits: Vec<u64>,
    /// The starts whose children end the other way.
    pub otherwise: Vec<u64>,
    /// The starts that fail.
    pub starts_fail: Vec<u64>,
    /// The waits that fail, each with the child that was started first.
    pub waits_fail: Vec<u64>,
    /// The waits that are out of memory with the child that was started first.
    pub waits_lose: Vec<u64>,
    /// The reads that fail.
    pub reads_fail: Vec<u64>,
}

impl Script {
    /// Each child ends at the first wait, and no call fails.
    pub fn new(alloc: Global) -> Script {
        Script {
            waits: Vec::new(alloc),
            otherwise: Vec::new(alloc),
            starts_fail: Vec::new(alloc),
            waits_fail: Vec::new(alloc),
            waits_lose: Vec::new(alloc),
            reads_fail: Vec::new(alloc),
        }
    }

    // How many waits in vain the child of a start takes.
    fn waits_of(&self, start: u64) -> u64 {
        match self.waits.get(start as usize) {
            Some(waits) => *waits,
            None => 0,
        }
    }
}

/// A spawner in memory, whose children do a work. Of several that may have ended, the one that was started first is found.
#[derive(Drop)]
pub struct MemSpawner<W> {
    pub(crate) running: Running<W>,
    script: Script,
    starts: u64,
    waited: u64,
    reads: u64,
    faults: u64,
    waits: u64,
}

impl<W: Work> MemSpawner<W> {
    ghost use Rattle.std.specs.Prelude.{◌≡◌, [], None, is_some, length};
    ghost use Rattle.mt_spawn.specs.Children.{lives};
    ghost use Rattle.mt_spawn.specs.Memory.{children_of};

    /// A spawner without children.
    pub fn new(alloc: Global, work: W, script: Script) -> MemSpawner<W>
        ensures idle { result.running.children.items.items ≡ [] }
        ensures free { result.running.held ≡ None }
        ensures work { result.running.work ≡ work }
    {
        MemSpawner {
            running: Running::new(alloc, work),
            script,
            starts: 0,
            waited: 0,
            reads: 0,
            faults: 0,
            waits: 0,
        }
    }

    /// How many children live.
    pub fn live(&self) -> usize
        ensures { result ≡ length self.now.running.children.items.items }
    {
        self.running.children.len()
    }

    /// Whether a child of this ticket lives.
    pub fn lives(&self, ticket: Ticket) -> bool
        ensures { result ≡ lives ticket.number (children_of self.now.running.children.items.items) }
    {
        self.running.children.has(ticket.number)
    }

    /// Whether what an ended child left is held.
    pub fn is_holding(&self) -> bool
        ensures { result ≡ is_some self.now.running.held }
    {
        self.running.held.is_some()
    }

    /// How many starts were asked for.
    pub fn starts(&self) -> u64
        ensures { result ≡ self.now.starts }
    {
        self.starts
    }

    /// How many calls have failed.
    pub fn faults(&self) -> u64
        ensures { result ≡ self.now.faults }
    {
        self.faults
    }

    /// How many waits were in vain.
    pub fn waits(&self) -> u64
        ensures { result ≡ self.now.waits }
    {
        self.waits
    }

    /// How many children lived at the ends of children, summed up.
    pub fn company(&self) -> u64
        ensures { result ≡ self.now.running.company }
    {
        self.running.company
    }
}

impl<W: Work> Spawner for MemSpawner<W> {
    ghost use Rattle.std.specs.Prelude.{◌≡◌, Bool};
    ghost use Rattle.std.proofs.Common.{ap};
    ghost use Rattle.mt_spawn.specs.Memory.{IsOutcome, MemFate, held_of, seen_of};

    ghost Rule = { W };

    ghost Fate = { MemFate };

    ghost rule = { λ s. s.running.work };

    ghost seen = { λ s. seen_of s.running.children.items.items s.running.company s.faults s.waits };

    ghost held = { λ s. held_of s.running.held };

    ghost told = { λ s. s.running.held };

    ghost gives = { λ work run input raw. (otherwise : Bool) × (raw ≡ W.raw_of work run input otherwise) };

    ghost may = { λ work fate raw. IsOutcome (W.raw_of work) fate raw };

    fn start<S: Source>(&mut self, alloc: Global, order: &Order, bytes: &mut S) -> Begun {
        let number = self.starts;
        self.starts = self.starts.saturating_add(1);
        if self.running.children.is_full() || self.script.starts_fail.contains(&number) {
            self.faults = self.faults.saturating_add(1);
            return Begun::Failed;
        }
        let due = self.waited.saturating_add(self.script.waits_of(number));
        let otherwise = self.script.otherwise.contains(&number);
        self.running.begin(alloc, order, bytes, due, otherwise)
    }

    // It never waits, patient or not.
    fn wait(&mut self, alloc: Global, _patient: bool) -> Waited {
        let number = self.waited;
        self.waited = self.waited.saturating_add(1);
        if self.script.waits_fail.contains(&number) {
            if let Some(child) = self.running.children.items.first() {
                let ticket = child.ticket;
                self.running.children.remove(ticket);
                self.faults = self.faults.saturating_add(1);
                return Waited::Failed(Ticket { number: ticket });
            }
        }
        if self.script.waits_lose.contains(&number) {
            if let Some(child) = self.running.children.items.first() {
                let ticket = child.ticket;
                self.running.children.remove(ticket);
                return Waited::Lost(Ticket { number: ticket });
            }
        }
        match self.running.children.first_due(number) {
            Some(place) => self.running.end(alloc, place),
            None => {
                self.running.children.wait_all();
                self.waits = self.waits.saturating_add(1);
                Waited::NotYet
            }
        }
    }

    fn read(&mut self, part: Part, at: u64, into: &mut [u8]) -> ReadStep {
        let number = self.reads;
        self.reads = self.reads.saturating_add(1);
        if self.script.reads_fail.contains(&number) {
            self.faults = self.faults.saturating_add(1);
            return ReadStep::Failed;
        }
        self.running.read(part, at, into)
    }

    fn release(&mut self) {
        self.running.held = None;
    }

    fn kill(&mut self, ticket: Ticket) {
        self.running.children.remove(ticket.number);
    }

    ghost told_is_held = { λ s raw is. ap held_of is };
}

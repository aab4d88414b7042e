//! The live children of a spawner in memory.
ghost use Rattle.std.specs.Prelude.{◌≡◌, ◌==◌, ◌<◌, All, IfOk, Err};
ghost use Rattle.mt_base.specs.Counts.{NeverFell, Rose};
ghost use Rattle.std.specs.List.{AllZip, list_any};
ghost use Rattle.mt_spawn.specs.Children.{HasWaited};
ghost use Rattle.mt_spawn.specs.Memory.{ReadAll, children_of};

use crate::Order;
use mt_edge::{ReadStep, Source};
use std::alloc::{AllocError, Global};

/// How many bytes of a source are read at once.
const PIECE: usize = 4_096;

/// A child in memory.
#[derive(Drop)]
pub struct MemChild {
    /// What tells it from the others.
    pub ticket: u64,
    /// What it was started by.
    pub order: Order,
    /// Its input and its assets.
    pub bytes: Vec<u8>,
    /// The number of the first wait that may find its end, counted from 0.
    pub due: u64,
    /// The truth value by which it ends.
    pub otherwise: bool,
    /// How often it was waited for in vain.
    pub waits: u64,
}

/// The live children, in the order of their starts, and the ticket of the next one.
#[derive(Drop)]
pub struct Children {
    pub items: Vec<MemChild>,
    pub next: u64,
    ghost below: { All (λ c. c.ticket < next) items.items },
}

/// Why a source was not read to its end.
#[derive(Clone, Copy, Debug, PartialEq, Eq)]
pub enum ReadEnd {
    /// A read has failed.
    Failed,
    /// Out of memory, or the source did not end within 2 ^ 64 - 1 reads.
    Memory,
}

/// All bytes that are left of a source.
pub fn read_all<S: Source>(alloc: Global, source: &mut S) -> Result<Vec<u8>, ReadEnd>
    ensures read { IfOk result (λ bytes. ReadAll (S.left source.old) bytes.items (S.left source.new)) }
    ensures failed { result ≡ Err ReadEnd.Failed → Rose (S.read_faults source.old) (S.read_faults source.new) }
    ensures faults { NeverFell (S.read_faults source.old) (S.read_faults source.new) }
    ensures stays { S.source_stays source.old source.new }
{
    let mut bytes = Vec::new(alloc);
    let mut piece = [0; PIECE];
    'read: for _ in 0..u64::MAX {
        match source.read(&mut piece) {
            ReadStep::Took(count) => {
                if bytes.extend_from_slice(&piece[..count]).is_err() {
                    return Err(ReadEnd::Memory);
                }
            }
            ReadStep::End => return Ok(bytes),
            ReadStep::Failed => return Err(ReadEnd::Failed),
        }
    }
    Err(ReadEnd::Memory)
}

impl Children {
    ghost use Rattle.std.specs.Prelude.{◌≡◌, ◌<◌, [], filter, length, false, IfOk, IfErr, IfSome};
    ghost use Rattle.std.specs.List.{AllZip};
    ghost use Rattle.mt_spawn.specs.Children.{HasWaited, lives};
    ghost use Rattle.mt_spawn.specs.Memory.{AddedAs, children_of, is_other};

    /// No child.
    pub fn new(alloc: Global) -> Children
        ensures { result.items.items ≡ [] }
    {
        Children {
            items: Vec::new(alloc),
            next: 0,
        }
    }

    /// How many children live.
    pub fn len(&self) -> usize
        ensures { result ≡ length self.now.items.items }
    {
        self.items.len()
    }

    /// Whether one of a ticket lives.
    pub fn has(&self, ticket: u64) -> bool
        ensures { result ≡ lives ticket (children_of self.now.items.items) }
    {
        has_ticket(self.items.as_slice(), ticket)
    }

    /// Whether all tickets were given.
    pub fn is_full(&self) -> bool
        ensures { result ≡ false → self.now.next < 18446744073709551615 }
    {
        self.next == u64::MAX
    }

    /// Takes out the child of a ticket.
    pub fn remove(&mut self, ticket: u64)
        ensures { self.new.items.items ≡ filter (is_other ticket) self.old.items.items }
    {
        self.items.retain(|child: &MemChild| child.ticket != ticket);
    }

    /// Adds a child, and gives its ticket.
    pub fn add(
        &mut self,
        order: Order,
        bytes: Vec<u8>,
        due: u64,
        otherwise: bool,
    ) -> Result<u64, AllocError>
        requires { self.old.next < 18446744073709551615 }
        ensures ok { IfOk result (λ t. AddedAs self.old.items.items order bytes.items t self.new.items.items) }
        ensures err { IfErr result (λ e. self.new.items.items ≡ self.old.items.items) }
    {
        let ticket = self.next;
        match self.items.push(MemChild {
            ticket,
            order,
            bytes,
            due,
            otherwise,
            waits: 0,
        }) {
            Ok(()) => {}
            Err(_) => return Err(AllocError),
        }
        self.next += 1;
        Ok(ticket)
    }

    /// The place of the first child that may end at this wait.
    pub fn first_due(&self, wait: u64) -> Option<usize>
        ensures { IfSome result (λ k. k < length self.now.items.items) }
    {
        self.items.iter().position(|child| child.due <= wait)
    }

    /// Counts a wait in vain of every child.
    pub fn wait_all(&mut self)
        ensures { AllZip HasWaited (children_of self.old.items.items) (children_of self.new.items.items) }
    {
        wait_in(&mut self.items);
    }
}

// Whether one of these has a ticket.
fn has_ticket(children: &[MemChild], ticket: u64) -> bool
    ensures { result ≡ list_any (λ c. ticket == c.ticket) children.now }
{
    children.iter().any(|child| ticket == child.ticket)
}

// Counts a wait in vain of each of these.
fn wait_in(children: &mut Vec<MemChild>)
    ensures { AllZip HasWaited (children_of children.old.items) (children_of children.new.items) }
{
    for index in 0..children.len() {
        children[index].waits = children[index].waits.saturating_add(1);
    }
}

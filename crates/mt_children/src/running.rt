//! The live children of a spawner of commands.
ghost use Rattle.std.specs.Prelude.{◌≡◌, ◌<◌, ◌==◌, All, IfSome, length};
ghost use Rattle.std.specs.List.{AllZip, list_any};
ghost use Rattle.mt_spawn.specs.Children.{HasWaited};

use mt_adapters::Wakes;
use std::alloc::Global;
use std::io;
use std::marker::Model;
use std::os::fd::AsRawFd;
use std::process::{Child, ExitStatus, SystemProcess};

/// A child that runs, or that has ended and was not waited for.
#[derive(Drop)]
pub(crate) struct Running {
    /// Its ticket, which is the number of its folder too.
    pub(crate) ticket: u64,
    // How often it was waited for in vain.
    waits: u64,
    /// Its process, the first of its group.
    pub(crate) process: Child<SystemProcess>,
}

impl Model for Running {
    ghost use Rattle.mt_spawn.specs.Children.{Child as Live};

    ghost Value = { Live (Unit {0}) };

    ghost view = { λ c. record { ticket = c.ticket; fate = tt; waits = c.waits } };
}

impl Running {
    ghost use Rattle.std.specs.Prelude.{◌≡◌};

    // How it has ended, if it has.
    fn ended(&mut self) -> io::Result<Option<ExitStatus>>
        ensures { self.new ≡ self.old }
    {
        self.process.try_wait()
    }

    // Whether its first process has ended, or will have in a moment.
    fn is_ending(&self) -> bool {
        match &self.process.stdout {
            Some(output) => Wakes::is_closed(output.as_raw_fd()),
            None => false,
        }
    }
}

/// The live children in the order of their starts. No ticket reaches `next`.
#[derive(Drop)]
pub(crate) struct Children {
    pub(crate) items: Vec<Running>,
    pub(crate) next: u64,
    ghost below: { All (λ c. c.ticket < next) items.items },
}

/// A child that is found to have ended.
#[derive(Drop)]
pub(crate) struct Found {
    /// Its place.
    pub(crate) place: usize,
    /// How it ended, or why it can't be waited for.
    pub(crate) status: io::Result<ExitStatus>,
}

impl Children {
    ghost use Rattle.std.specs.Prelude.{◌≡◌, ◌≤◌, ◌<◌, [], length, false, IfOk, IfErr, IfSome, ◌++◌, ◌∷◌};
    ghost use Rattle.std.specs.List.{AllZip};
    ghost use Rattle.mt_spawn.specs.Children.{HasWaited, lives, without};

    /// No child.
    pub(crate) fn new(alloc: Global) -> Children
        ensures { result.items.items ≡ [] }
    {
        Children {
            items: Vec::new(alloc),
            next: 0,
        }
    }

    /// Whether the child of a ticket lives.
    pub(crate) fn has(&self, ticket: u64) -> bool
        ensures { result ≡ lives ticket self.now.items.items }
    {
        has_ticket(self.items.as_slice(), ticket)
    }

    /// The place of the child of a ticket.
    pub(crate) fn place_of(&self, ticket: u64) -> Option<usize>
        ensures { IfSome result (λ k. k < length self.now.items.items) }
    {
        self.items.iter().position(|child| child.ticket == ticket)
    }

    /// Passes over the tickets up to one.
    pub(crate) fn pass(&mut self, ticket: u64)
        requires next { self.old.next ≤ ticket }
        requires small { ticket < 18446744073709551615 }
        ensures items { self.new.items.items ≡ self.old.items.items }
        ensures fresh { lives ticket self.new.items.items ≡ false }
        ensures next { ticket < self.new.next }
    {
        self.next = ticket + 1;
    }

    /// Takes out the child of a ticket.
    pub(crate) fn remove(&mut self, ticket: u64)
        ensures { self.new.items.items ≡ without ticket self.old.items.items }
    {
        self.items.retain(|child: &Running| ticket != child.ticket);
    }

    // Passes over the tickets up to one, if it is not yet.
    fn reach(&mut self, ticket: u64)
        requires { ticket < 18446744073709551615 }
        ensures items { self.new.items.items ≡ self.old.items.items }
        ensures next { ticket < self.new.next }
    {
        if self.next <= ticket {
            self.next = ticket + 1;
        }
    }

    /// Adds a child under a ticket. Where memory is wanting, its process is given back.
    pub(crate) fn add(
        &mut self,
        ticket: u64,
        process: Child<SystemProcess>,
    ) -> Result<(), Child<SystemProcess>>
        requires { ticket < 18446744073709551615 }
        ensures ok { IfOk result (λ _. self.new.items.items ≡ self.old.items.items ++ record { ticket = ticket; fate = tt; waits = 0 } ∷ []) }
        ensures err { IfErr result (λ _. self.new.items.items ≡ self.old.items.items) }
    {
        self.reach(ticket);
        let child = Running {
            ticket,
            waits: 0,
            process,
        };
        match self.items.push(child) {
            Ok(()) => Ok(()),
            Err(failed) => Err(failed.value.process),
        }
    }

    /// Counts a wait in vain of every child.
    pub(crate) fn wait_all(&mut self)
        ensures { AllZip HasWaited self.old.items.items self.new.items.items }
    {
        wait_in(&mut self.items);
    }

    /// Whether the first process of a child has ended, or will have in a moment.
    pub(crate) fn has_ending(&self) -> bool {
        self.items.iter().any(|child| child.is_ending())
    }

    /// The first child that has ended, and how.
    pub(crate) fn first_ended(&mut self) -> Option<Found>
        ensures same { self.new.items.items ≡ self.old.items.items }
        ensures there { IfSome result (λ f. f.place < length self.old.items.items) }
    {
        ended_in(&mut self.items)
    }
}

// Whether one of these has a ticket.
fn has_ticket(children: &[Running], ticket: u64) -> bool
    ensures { result ≡ list_any (λ c. ticket == c.ticket) children.now }
{
    children.iter().any(|child| ticket == child.ticket)
}

// Counts a wait in vain of each of these.
fn wait_in(children: &mut Vec<Running>)
    ensures { AllZip HasWaited children.old.items children.new.items }
{
    'waits: for index in 0..children.len() {
        children[index].waits = children[index].waits.saturating_add(1);
    }
}

// The first of these that has ended.
fn ended_in(children: &mut Vec<Running>) -> Option<Found>
    ensures same { children.new.items ≡ children.old.items }
    ensures there { IfSome result (λ f. f.place < length children.old.items) }
{
    'places: for place in 0..children.len() {
        match children[place].ended() {
            Ok(None) => {}
            Ok(Some(status)) => {
                return Some(Found {
                    place,
                    status: Ok(status),
                });
            }
            Err(error) => {
                return Some(Found {
                    place,
                    status: Err(error),
                });
            }
        }
    }
    None
}

//! Children in memory, and the outcome of one that has ended. Nothing here fails but for want of memory.
ghost use Rattle.std.specs.Prelude.{◌≡◌, ◌<◌, ◌≤◌, ◌+◌, ◌⊎◌, IfOk, length, take, drop};
ghost use Rattle.mt_spawn.specs.Orders.{told_of};
ghost use Rattle.mt_spawn.specs.Parts.{part_bytes};

use crate::children::{Children, MemChild, ReadEnd, read_all};
use crate::left::told_of;
use crate::{Begun, Left, Order, Part, Ticket, Waited, Work};
use mt_base::Duplicate;
use mt_edge::{ReadStep, Source};
use mt_types::{Made, Raw};
use std::alloc::{AllocError, Global};

/// Children that do a work.
#[derive(Drop)]
pub struct Running<W> {
    pub work: W,
    pub children: Children,
    pub held: Option<Raw>,
    /// How many children lived at the ends of children, summed up.
    pub company: u64,
}

// The bytes of a part.
fn part_of(raw: &Raw, part: Part) -> &[u8]
    ensures { result.now ≡ part_bytes raw.now.made part }
{
    match (&raw.made, part) {
        (Made::Whole { out, .. }, Part::Out) => out.as_slice(),
        (Made::Whole { files, .. }, Part::File { index }) => {
            match files.as_slice().get(index as usize) {
                Some(file) => file.bytes.as_slice(),
                None => &[],
            }
        }
        (Made::TooLarge { .. }, _) => &[],
    }
}

// Copies from a place of some bytes on, as many as there are and fit.
fn copy_part(bytes: &[u8], at: u64, into: &mut [u8]) -> usize
    requires { 0 < length into.old }
    ensures few { result ≤ length into.old }
    ensures within { 0 < result → at + result ≤ length bytes.now }
    ensures all { result ≡ 0 → length bytes.now ≤ at }
    ensures copied { 0 < result → take result into.new ≡ take result (drop at bytes.now) }
    ensures size { length into.new ≡ length into.old }
{
    if at >= bytes.len() as u64 {
        return 0;
    }
    let rest = &bytes[at as usize..];
    let count = rest.len().min(into.len());
    into[..count].copy_from_slice(&rest[..count]);
    count
}

impl<W: Work> Running<W> {
    ghost use Rattle.std.specs.Prelude.{◌≡◌, ◌≢◌, ◌<◌, ℕ, Bool, [], None, IfOk, length};
    ghost use Rattle.mt_base.specs.Counts.{NeverFell, Rose};
    ghost use Rattle.mt_types.specs.declared.task.Raw.{Raw};
    ghost use Rattle.mt_spawn.specs.Children.{Begins, Waits};
    ghost use Rattle.mt_spawn.specs.Memory.{IsOutcome, child_of, held_of, outcome_of, seen_of};
    ghost use Rattle.mt_spawn.specs.Orders.{input_from, told_of, run_from};
    ghost use Rattle.mt_spawn.specs.Parts.{ReadsPart, size_in, told_part};

    /// No child.
    pub fn new(alloc: Global, work: W) -> Running<W>
        ensures idle { result.children.items.items ≡ [] }
        ensures free { result.held ≡ None }
        ensures work { result.work ≡ work }
    {
        Running {
            work,
            children: Children::new(alloc),
            held: None,
            company: 0,
        }
    }

    /// Starts a child that may end from a wait on. It never fails.
    pub fn begin<S: Source>(
        &mut self,
        alloc: Global,
        order: &Order,
        bytes: &mut S,
        due: u64,
        otherwise: bool,
    ) -> Begun
        requires room { self.old.children.next < 18446744073709551615 }
        ensures begins { (faults : ℕ) (waits : ℕ) → Begins (IsOutcome (W.raw_of self.old.work))
            (λ all raw. (otherwise : Bool) × (raw ≡ W.raw_of self.old.work (run_from order.now all) (input_from order.now all) otherwise)) (S.left bytes.old) (S.left bytes.new)
            (seen_of self.old.children.items.items self.old.company faults waits) result (seen_of self.new.children.items.items self.new.company faults waits) }
        ensures never { result ≢ Begun.Failed }
        ensures held { self.new.held ≡ self.old.held }
        ensures work { self.new.work ≡ self.old.work }
        ensures input { result ≡ Begun.InputFailed → Rose (S.read_faults bytes.old) (S.read_faults bytes.new) }
        ensures reads { NeverFell (S.read_faults bytes.old) (S.read_faults bytes.new) }
        ensures stays { S.source_stays bytes.old bytes.new }
    {
        let all = match read_all(alloc, bytes) {
            Ok(all) => all,
            Err(ReadEnd::Failed) => return Begun::InputFailed,
            Err(ReadEnd::Memory) => return Begun::Memory,
        };
        let order = match order.copy(alloc) {
            Ok(order) => order,
            Err(_) => return Begun::Memory,
        };
        match self.children.add(order, all, due, otherwise) {
            Ok(ticket) => Begun::Began(Ticket { number: ticket }),
            Err(_) => Begun::Memory,
        }
    }

    // What a child ends in, with what is told of it.
    fn outcome(&self, alloc: Global, child: &MemChild) -> Result<(Raw, Left), AllocError>
        ensures { IfOk result (λ both. (both.0 ≡ outcome_of (W.raw_of self.now.work) child.now.order child.now.bytes.items child.now.otherwise) × (both.1 ≡ told_of both.0)) }
    {
        let raw = self.work.work(alloc, &child.order, child.bytes.as_slice(), child.otherwise)?;
        let left = told_of(alloc, &raw)?;
        Ok((raw, left))
    }

    /// Ends the child at a place, and holds what it left. It never fails.
    pub fn end(&mut self, alloc: Global, place: usize) -> Waited
        requires there { place < length self.old.children.items.items }
        requires free { self.old.held ≡ None }
        ensures wait { (faults : ℕ) (waits : ℕ) → Waits (IsOutcome (W.raw_of self.old.work)) (seen_of self.old.children.items.items self.old.company faults waits)
            result (held_of self.new.held) self.new.held (seen_of self.new.children.items.items self.new.company faults waits) }
        ensures work { self.new.work ≡ self.old.work }
    {
        let child = &self.children.items[place];
        let ticket = child.ticket;
        let (raw, left) = match self.outcome(alloc, child) {
            Ok(both) => both,
            Err(_) => return Waited::Memory,
        };
        self.company = self.company.saturating_add(self.children.len() as u64);
        self.children.remove(ticket);
        self.held = Some(raw);
        Waited::Ended {
            ticket: Ticket { number: ticket },
            left,
        }
    }

    /// Reads from a part of what is held. It never fails.
    pub fn read(&self, part: Part, at: u64, into: &mut [u8]) -> ReadStep
        requires { 0 < length into.old }
        ensures { (faults : ℕ) → ReadsPart (told_part self.now.held part) (size_in (held_of self.now.held) part) at faults into.new result faults }
    {
        let Some(raw) = &self.held else {
            return ReadStep::End;
        };
        match copy_part(part_of(raw, part), at, into) {
            0 => ReadStep::End,
            count => ReadStep::Took(count),
        }
    }
}

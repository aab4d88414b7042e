//! The phase that is being listed.
ghost use Rattle.std.specs.Prelude.{◌≡◌};
ghost use Rattle.mt_checker.specs.Sheets as sheets;

use crate::feed::Gathered;
use mt_certline::Listed;
use mt_types::PhaseKind;
use std::alloc::{AllocError, Global};
use std::marker::Model;

/// What is kept of the phase that is being listed: a byte for each of its places, and what it and the next phase read.
#[derive(Drop)]
pub(crate) struct PhaseSheet {
    phase: usize,
    reading: Gathered,
    listed: Vec<bool>,
    left: usize,
    last: Option<u64>,
    next: Gathered,
}

impl Model for PhaseSheet {
    ghost use Rattle.std.specs.Prelude.{◌≡◌};
    ghost use Rattle.mt_checker.specs.Sheets.{Sheet, places_left};

    ghost Value = { Sheet };

    ghost view = { λ s. record { phase = s.phase; reading = s.reading; listed = s.listed.items; last = s.last; next = s.next } };

    ghost invariant = { λ s. s.left ≡ places_left s.listed.items };
}

// Whether a place is there and not listed.
fn is_open(listed: &[bool], place: u64) -> bool
    ensures { result ≡ sheets.is_open listed.now place }
{
    match listed.get(place as usize) {
        Some(is_listed) => !*is_listed,
        None => false,
    }
}

// Whether a position is above the last one, if there is one.
fn is_above(last: Option<u64>, position: u64) -> bool
    ensures { result ≡ sheets.is_above last position }
{
    match last {
        Some(last) => last < position,
        None => true,
    }
}

impl PhaseSheet {
    ghost use Rattle.std.specs.Prelude.{◌≡◌, true, IfOk, OnOk};
    ghost use Rattle.mt_checker.specs.Sheets.{entered, first_sheet, is_open, is_whole_list, may_follow};

    /// The phase of this number over what it reads, with so many places; the next phase is of this kind.
    pub(crate) fn new(
        alloc: Global,
        phase: usize,
        reading: Gathered,
        count: u64,
        next: Option<PhaseKind>,
    ) -> Result<PhaseSheet, AllocError>
        ensures { IfOk result (λ s. s ≡ first_sheet phase reading count next) }
    {
        let left = count as usize;
        let listed = vec![in alloc; false; left]?;
        let next = Gathered::new(alloc, next)?;
        Ok(PhaseSheet {
            phase,
            reading,
            listed,
            left,
            last: None,
            next,
        })
    }

    /// Whether each place is listed.
    pub(crate) fn is_whole(&self) -> bool
        ensures { result ≡ is_whole_list self.now.listed }
    {
        self.left == 0
    }

    /// Whether a task may stand there: it is of this phase, at a place that is not listed, later than the last one, and lists
    /// what it reads.
    pub(crate) fn may_follow(&self, task: &Listed) -> bool
        ensures { result ≡ may_follow self.now task.now }
    {
        task.phase == self.phase as u64
            && is_open(&self.listed, task.place)
            && is_above(self.last, task.position)
            && self.reading.is_read(task.place, task.reads.as_slice())
    }

    /// The task stands there. On an error, which is want of memory, it may hold anything.
    pub(crate) fn enter(&mut self, task: Listed) -> Result<(), AllocError>
        requires { is_open self.old.listed task.place ≡ true }
        ensures { OnOk result (self.new ≡ entered self.old task) }
    {
        let Listed {
            phase: _,
            place,
            position,
            outputs,
            reads: _,
        } = task;
        self.listed[place as usize] = true;
        self.left -= 1;
        self.last = Some(position);
        match outputs {
            Some(items) => self.next.add_all(items),
            None => Ok(()),
        }
    }

    /// The number of the phase, and what the next one reads.
    pub(crate) fn into_next(self) -> (usize, Gathered)
        ensures phase { result.0 ≡ self.phase }
        ensures next { result.1 ≡ self.next }
    {
        let PhaseSheet {
            phase,
            reading: _,
            listed: _,
            left: _,
            last: _,
            next,
        } = self;
        (phase, next)
    }
}

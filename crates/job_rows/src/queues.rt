//! Rows of `mt_sched`. Jobs are numbered from 0, in the order in which they are added.
ghost use Rattle.mt_sched.specs.Plans.{IsAbove};

use mt_base::{Sequence, Text};
use mt_rows::{Row, Stop};
use mt_sched::{Queue, Sched};
use mt_types::{Phase, PhaseKind, Task};
use std::alloc::{AllocError, Global};

/// The jobs that were added, and how many.
#[derive(Drop)]
pub struct Queues {
    sched: Sched,
    made: u64,
    ghost above: { IsAbove made sched },
}

// A number that fits.
fn narrow(number: u64) -> Result<u32, Stop> {
    if number < 1 << 32 {
        Ok(number as u32)
    } else {
        Err(Stop::NoSuchRow)
    }
}

// The kind of a phase by its word: `map`, or the number of its reducers.
fn kind(row: &Row, place: usize) -> Result<PhaseKind, Stop> {
    match row.text(place)? {
        "map" => Ok(PhaseKind::Map),
        _ => Ok(PhaseKind::Reduce {
            count: narrow(row.number(place)?)?,
        }),
    }
}

fn phase(alloc: Global, row: &Row, place: usize) -> Result<Phase, Stop> {
    let kind = kind(row, place)?;
    let exec = Text::from_str(alloc, "x")?;
    Ok(Phase {
        kind,
        exec,
        init: None,
        assets: Sequence::new(alloc),
    })
}

fn phases(alloc: Global, row: &Row) -> Result<Vec<Phase>, Stop> {
    let mut phases = Vec::new(alloc);
    for place in 1..row.len() {
        phases.push(phase(alloc, row, place)?)?;
    }
    Ok(phases)
}

// The task that three words from a place on name.
fn task(row: &Row, place: usize) -> Result<Task, Stop> {
    let job = row.number(place)?;
    let phase = narrow(row.number(place.wrapping_add(1))?)?;
    let place = row.number(place.wrapping_add(2))?;
    Ok(Task { job, phase, place })
}

// The tasks that are skipped: three words each.
fn skipped(alloc: Global, row: &Row) -> Result<Vec<Task>, Stop> {
    let mut tasks = Vec::new(alloc);
    for place in (1..row.len()).step_by(3) {
        tasks.push(task(row, place)?)?;
    }
    Ok(tasks)
}

fn put_task(found: Option<Task>, out: &mut String) -> Result<(), AllocError> {
    match found {
        Some(task) => write!(out, "{} {} {}", task.job, task.phase, task.place),
        None => out.push('-'),
    }
}

fn put_waiting(found: Option<u64>, out: &mut String) -> Result<(), AllocError> {
    match found {
        Some(job) => write!(out, ", {job} waits"),
        None => Ok(()),
    }
}

// The words that hold of a task.
fn put_facts(queue: &Queue, phase: u32, place: u64, out: &mut String) -> Result<(), Stop> {
    out.push(if queue.is_task(phase, place) {
        'T'
    } else {
        '-'
    })?;
    out.push(if queue.is_committed(phase, place) {
        'C'
    } else {
        '-'
    })?;
    out.push(if queue.is_ready(phase, place) {
        'R'
    } else {
        '-'
    })?;
    out.push(if queue.is_complete() { 'A' } else { '-' })?;
    Ok(())
}

impl Queues {
    /// No job.
    pub fn new(alloc: Global) -> Queues {
        Queues {
            sched: Sched::new(alloc),
            made: 0,
        }
    }

    fn add(&mut self, alloc: Global, row: &Row) -> Result<bool, Stop> {
        let job = self.made;
        if job == u64::MAX {
            return Err(Stop::NoSuchRow);
        }
        let phases = phases(alloc, row)?;
        self.sched.add(alloc, job, &phases)?;
        self.made = job + 1;
        Ok(true)
    }

    // `feed JOB PHASE`
    fn feed(&mut self, row: &Row) -> Result<bool, Stop> {
        let job = row.number(1)?;
        let phase = narrow(row.number(2)?)?;
        self.sched.feed(job, phase, 1)?;
        Ok(true)
    }

    // `commit JOB PHASE PLACE`
    fn commit(&mut self, row: &Row) -> Result<bool, Stop> {
        let task = task(row, 1)?;
        self.sched.commit(&task)?;
        Ok(true)
    }

    // `end JOB`
    fn end(&mut self, row: &Row) -> Result<bool, Stop> {
        let job = row.number(1)?;
        self.sched.end(job)?;
        Ok(true)
    }

    // `remove JOB`
    fn remove(&mut self, row: &Row) -> Result<bool, Stop> {
        let job = row.number(1)?;
        self.sched.remove(job);
        Ok(true)
    }

    // The first ready task, and the first job that waits to be finished.
    fn put_next(&self, skip: &[Task], out: &mut String) -> Result<bool, Stop> {
        put_task(self.sched.next_ready(skip), out)?;
        put_waiting(self.sched.waits_finish(), out)?;
        Ok(true)
    }

    // `task JOB PHASE PLACE`
    fn put_task_facts(&self, row: &Row, out: &mut String) -> Result<bool, Stop> {
        let task = task(row, 1)?;
        match self.sched.get(task.job) {
            Some(queue) => put_facts(queue, task.phase, task.place, out)?,
            None => out.push_str("none")?,
        }
        Ok(true)
    }

    // `next`, `next JOB PHASE PLACE ..`
    fn put_next_but(&self, alloc: Global, row: &Row, out: &mut String) -> Result<bool, Stop> {
        let skip = skipped(alloc, row)?;
        self.put_next(&skip, out)
    }

    // Makes the change of a row, if it is one.
    fn change(&mut self, alloc: Global, row: &Row) -> Result<bool, Stop> {
        match row.text(0)? {
            "add" => self.add(alloc, row),
            "feed" => self.feed(row),
            "commit" => self.commit(row),
            "end" => self.end(row),
            "remove" => self.remove(row),
            _ => Ok(false),
        }
    }

    /// The answer to a row of this crate, if it is one.
    pub fn answer(&mut self, alloc: Global, row: &Row, out: &mut String) -> Result<bool, Stop> {
        if self.change(alloc, row)? {
            return self.put_next(&[], out);
        }
        match row.text(0)? {
            "next" => self.put_next_but(alloc, row, out),
            "task" => self.put_task_facts(row, out),
            _ => Ok(false),
        }
    }
}

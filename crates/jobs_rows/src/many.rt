//! Rows that do much at once, of which a script takes the time and the memory.
ghost use Rattle.std.specs.Prelude.{◌<◌, IfOk};
ghost use Rattle.std.specs.List.{AllByRecursion};
ghost use Rattle.mt_types.specs.WellMade.{IsWellMadeLine};
ghost use Rattle.mt_types.specs.declared.limits.TheConstants.{MOST_COMMANDS};

use crate::account::{Account, Changed};
use crate::words::{outputs, path_at, simple_document, task_at};
use mt_base::Duplicate;
use mt_jobs::Jobs;
use mt_rows::{Row, Stop};
use mt_types::{Body, Fate, InputLine, MOST_COMMANDS, Path, Refusal, Sequence, Task};
use std::alloc::{AllocError, Global};

/// So often is done what a row asks for at most.
const MOST: u64 = 10_000_000;

/// So many tasks are passed over at most.
const MOST_SKIPPED: u64 = 64;

// The account after a change that was taken.
fn taken(changed: Changed) -> Result<Account, Stop> {
    match changed? {
        (account, Ok(())) => Ok(account),
        (_, Err(_)) => Err(Stop::NoSuchRow),
    }
}

// A line that names this object.
fn line_of(alloc: Global, path: &Path) -> Result<InputLine, AllocError>
    ensures { IfOk result IsWellMadeLine }
{
    let path = path.copy(alloc)?;
    let _key = path.key();
    Ok(InputLine::Named(path))
}

// So many lines that name this object.
fn lines_of(alloc: Global, path: &Path, count: u64) -> Result<Vec<InputLine>, AllocError>
    ensures { IfOk result (λ v. AllByRecursion IsWellMadeLine v.items) }
{
    let mut lines = Vec::new(alloc);
    for _ in 0..count {
        lines.push(line_of(alloc, path)?)?;
    }
    Ok(lines)
}

// The lines of a row.
fn lines_at(alloc: Global, row: &Row) -> Result<Vec<InputLine>, Stop>
    ensures { IfOk result (λ v. AllByRecursion IsWellMadeLine v.items) }
{
    let count = row.number(3)?.min(MOST);
    let path = path_at(alloc, row, 2)?;
    Ok(lines_of(alloc, &path, count)?)
}

/// `fed JOB PATH COUNT`: so many lines at once that name an object.
pub fn feed(account: Account, alloc: Global, row: &Row) -> Changed
    requires { account.count < MOST_COMMANDS }
{
    let job = row.number(1)?;
    let lines = lines_at(alloc, row)?;
    account.add(alloc, job, &lines)
}

// One task without outputs.
fn commit_one(account: Account, alloc: Global, task: &Task) -> Result<Account, Stop> {
    if account.position() >= MOST_COMMANDS {
        return Err(Stop::NoSuchRow);
    }
    let fate: Fate<Body> = Fate::Good(Sequence::new(alloc));
    taken(account.commit(alloc, task, &fate))
}

/// `committed JOB COUNT`: the first tasks of the first phase, without outputs.
pub fn commit(account: Account, alloc: Global, row: &Row) -> Changed {
    let job = row.number(1)?;
    let count = row.number(2)?.min(MOST);
    let mut account = account;
    for place in 0..count {
        let task = Task {
            job,
            phase: 0,
            place,
        };
        account = commit_one(account, alloc, &task)?;
    }
    Ok((account, Ok(())))
}

/// `emitted JOB PHASE PLACE COUNT`: a task with so many outputs of a byte each.
pub fn emit(account: Account, alloc: Global, row: &Row) -> Changed
    requires { account.count < MOST_COMMANDS }
{
    let task = task_at(row, 1)?;
    let fate = outputs(alloc, row.number(4)?.min(MOST) as usize)?;
    account.commit(alloc, &task, &fate)
}

// One job.
fn make_simple(account: Account, alloc: Global) -> Result<Account, Stop>
    requires { account.count < MOST_COMMANDS }
{
    taken(account.make(alloc, simple_document(alloc)?))
}

// One input of a job.
fn feed_one(account: Account, alloc: Global, job: u64, path: &Path) -> Result<Account, Stop> {
    if account.position() >= MOST_COMMANDS {
        return Err(Stop::NoSuchRow);
    }
    let lines = lines_of(alloc, path, 1)?;
    taken(account.add(alloc, job, &lines))
}

// One job with one input.
fn make_one(account: Account, alloc: Global, path: &Path) -> Result<Account, Stop> {
    let number = account.position();
    if number >= MOST_COMMANDS - 1 {
        return Err(Stop::NoSuchRow);
    }
    let account = make_simple(account, alloc)?;
    feed_one(account, alloc, number * 4096, path)
}

/// `made COUNT PATH`: jobs of one map phase, each with one input.
pub fn make(account: Account, alloc: Global, row: &Row) -> Changed {
    let count = row.number(1)?.min(MOST);
    let path = path_at(alloc, row, 2)?;
    let mut account = account;
    for _ in 0..count {
        account = make_one(account, alloc, &path)?;
    }
    Ok((account, Ok(())))
}

/// `looked JOB COUNT`: the items of the first places of the first phase. The bytes of their bodies, added up.
pub fn look(jobs: &Jobs<Body>, row: &Row, out: &mut String) -> Result<(), Stop> {
    let job = row.number(1)?;
    let mut sum: u64 = 0;
    for place in 0..row.number(2)?.min(MOST) {
        let task = Task {
            job,
            phase: 0,
            place,
        };
        if let Some(item) = jobs.item(&task) {
            sum = sum.wrapping_add(item.body.len);
        }
    }
    write!(out, "{sum}")?;
    Ok(())
}

// The first ready tasks.
fn first_ready(alloc: Global, jobs: &Jobs<Body>, count: u64) -> Result<Vec<Task>, AllocError> {
    let mut tasks = Vec::new(alloc);
    for _ in 0..count.min(MOST_SKIPPED) {
        if let Some(task) = jobs.next_ready(&tasks) {
            tasks.push(task)?;
        }
    }
    Ok(tasks)
}

// The numbers of the jobs of so many first ready tasks but for these, added up.
fn sum_ready(jobs: &Jobs<Body>, skip: &[Task], count: u64) -> u64 {
    let mut sum: u64 = 0;
    for _ in 0..count {
        if let Some(task) = jobs.next_ready(skip) {
            sum = sum.wrapping_add(task.job);
        }
    }
    sum
}

/// `asked COUNT SKIPPED`: so often the first ready task behind the first ones. The numbers of their jobs, added up.
pub fn ask(alloc: Global, jobs: &Jobs<Body>, row: &Row, out: &mut String) -> Result<(), Stop> {
    let count = row.number(1)?.min(MOST);
    let skip = first_ready(alloc, jobs, row.number(2)?)?;
    let sum = sum_ready(jobs, &skip, count);
    Ok(write!(out, "{sum}")?)
}

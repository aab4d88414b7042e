//! An account, and the rows that change it or ask it.
ghost use Rattle.std.specs.Prelude.{◌<◌, IfOk};
ghost use Rattle.mt_codec.specs.Spelling.{HasSpelling};
ghost use Rattle.mt_types.specs.Kinds.{kind_of};
ghost use Rattle.mt_types.specs.declared.limits.TheConstants.{MOST_COMMANDS};
ghost use Rattle.mt_account.specs.Taken.{IsTaken};

use crate::hex::bytes_from;
use mt_account::{Account, is_taken};
use mt_codec::{DecodeError, decode};
use mt_jobs::{JobStand, Jobs};
use mt_rows::{Row, Rows, Stop};
use mt_types::{Body, Command, Entry, Job, MOST_COMMANDS, Path, Refusal};
use std::alloc::{AllocError, Global};

/// An account, where `new` has made one.
#[derive(Drop)]
pub struct Steps {
    account: Option<Account>,
}

// The command that these bytes spell.
fn decoded(alloc: Global, bytes: &[u8]) -> Result<Command<Body>, Stop>
    ensures { IfOk result (λ c. HasSpelling c) }
{
    match decode(alloc, bytes) {
        Ok(command) => Ok(command),
        Err(DecodeError::NotACommand) => Err(Stop::NoSuchRow),
        Err(DecodeError::Memory) => Err(Stop::Memory),
    }
}

// The command that a row spells.
fn spelled(alloc: Global, row: &Row) -> Result<Command<Body>, Stop>
    ensures { IfOk result (λ c. HasSpelling c) }
{
    let bytes = bytes_from(alloc, row, 1)?;
    decoded(alloc, &bytes)
}

// The same, where an account takes it.
fn command_of(alloc: Global, row: &Row) -> Result<Command<Body>, Stop>
    ensures spelled { IfOk result (λ c. HasSpelling c) }
    ensures kind { IfOk result (λ c. IsTaken (kind_of c)) }
{
    let command = spelled(alloc, row)?;
    if is_taken(&command) {
        Ok(command)
    } else {
        Err(Stop::NoSuchRow)
    }
}

// `take`: a command is judged and taken in one.
fn take(
    alloc: Global,
    account: &mut Account,
    command: Command<Body>,
) -> Result<Result<(), Refusal>, Stop>
    requires kind { IsTaken (kind_of command) }
    requires spelled { HasSpelling command }
    requires few { account.old.count < MOST_COMMANDS }
{
    Ok(account.change_if_allowed(alloc, command)?)
}

// `change`: it is judged before it is taken.
fn change(
    alloc: Global,
    account: &mut Account,
    command: Command<Body>,
) -> Result<Result<(), Refusal>, Stop>
    requires kind { IsTaken (kind_of command) }
    requires spelled { HasSpelling command }
    requires few { account.old.count < MOST_COMMANDS }
{
    if let Err(refusal) = account.judge(&command) {
        return Ok(Err(refusal));
    }
    account.change(alloc, command)?;
    Ok(Ok(()))
}

// The number of commands, or why the last one was not taken.
fn put_answer(count: u64, answer: Result<(), Refusal>, out: &mut String) -> Result<(), Stop> {
    match answer {
        Ok(()) => write!(out, "at {count}")?,
        Err(refusal) => write!(out, "{refusal:?}")?,
    }
    Ok(())
}

// What a row makes of an account that has room for a command.
fn stepped(alloc: Global, account: &mut Account, row: &Row) -> Result<Result<(), Refusal>, Stop>
    requires few { account.old.count < MOST_COMMANDS }
{
    let is_take = row.text(0)? == "take";
    let command = command_of(alloc, row)?;
    if is_take {
        take(alloc, account, command)
    } else {
        change(alloc, account, command)
    }
}

// A row that changes an account.
fn step(alloc: Global, account: &mut Account, row: &Row, out: &mut String) -> Result<(), Stop> {
    if account.count() >= MOST_COMMANDS {
        return Err(Stop::NoSuchRow);
    }
    let answer = stepped(alloc, account, row)?;
    put_answer(account.count(), answer, out)
}

fn put_judgement(judgement: Result<(), Refusal>, out: &mut String) -> Result<(), AllocError> {
    match judgement {
        Ok(()) => out.push_str("allowed"),
        Err(refusal) => write!(out, "{refusal:?}"),
    }
}

// `judge`: whether a command is allowed.
fn judge(alloc: Global, account: &Account, row: &Row, out: &mut String) -> Result<(), Stop> {
    let command = command_of(alloc, row)?;
    Ok(put_judgement(account.judge(&command), out)?)
}

// What stands at a path.
fn put_entry(found: Option<&Entry<Body>>, out: &mut String) -> Result<(), AllocError> {
    match found {
        Some(Entry::Directory { mtime }) => write!(out, "directory {mtime}"),
        Some(Entry::Object(object)) => write!(
            out,
            "object {} {} {}",
            object.number, object.body.len, object.mtime
        ),
        None => out.push_str("none"),
    }
}

// `at PATH`
fn put_at(alloc: Global, account: &Account, row: &Row, out: &mut String) -> Result<(), Stop> {
    match Path::plain(alloc, "l", row.bytes(1)?) {
        Ok(path) => Ok(put_entry(account.tree().get(&path), out)?),
        Err(_) => Err(Stop::NoSuchRow),
    }
}

// How a job stands.
fn put_job(job: &Job<Body>, out: &mut String) -> Result<(), AllocError> {
    let how = if job.done.is_none() {
        "running"
    } else if job.cancelled {
        "cancelled"
    } else {
        "finished"
    };
    write!(
        out,
        "{how}, inputs {}, missing {}, committed {}",
        job.inputs.len(),
        job.missing.len(),
        job.trace.len()
    )
}

// `job NUMBER`
fn put_found(jobs: &Jobs<Body>, row: &Row, out: &mut String) -> Result<(), Stop> {
    match jobs.get(row.number(1)?) {
        Some(job) => Ok(put_job(job, out)?),
        None => Ok(out.push_str("none")?),
    }
}

// `count`
fn put_count(account: &Account, out: &mut String) -> Result<(), Stop> {
    let jobs = account.jobs();
    write!(
        out,
        "{} commands, {} jobs run, {} are done",
        account.count(),
        jobs.count(JobStand::Running),
        jobs.count(JobStand::Done)
    )?;
    Ok(())
}

// A row that asks an account.
fn ask(alloc: Global, account: &Account, row: &Row, out: &mut String) -> Result<(), Stop> {
    match row.text(0)? {
        "judge" => judge(alloc, account, row, out),
        "at" => put_at(alloc, account, row, out),
        "job" => put_found(account.jobs(), row, out),
        "count" => put_count(account, out),
        _ => Err(Stop::NoSuchRow),
    }
}

impl Steps {
    /// No account yet: `new` makes one.
    pub fn new() -> Steps {
        Steps { account: None }
    }

    fn clear(&mut self, alloc: Global) -> Result<(), Stop> {
        self.account = Some(Account::new(alloc)?);
        Ok(())
    }

    fn change(&mut self, alloc: Global, row: &Row, out: &mut String) -> Result<(), Stop> {
        match &mut self.account {
            Some(account) => step(alloc, account, row, out),
            None => Err(Stop::NoSuchRow),
        }
    }

    fn ask(&self, alloc: Global, row: &Row, out: &mut String) -> Result<(), Stop> {
        match &self.account {
            Some(account) => ask(alloc, account, row, out),
            None => Err(Stop::NoSuchRow),
        }
    }
}

impl Rows for Steps {
    fn answer(
        &mut self,
        alloc: Global,
        _line: &str,
        row: &Row,
        out: &mut String,
    ) -> Result<(), Stop> {
        match row.text(0)? {
            "new" => self.clear(alloc),
            "take" | "change" => self.change(alloc, row, out),
            _ => self.ask(alloc, row, out),
        }
    }
}

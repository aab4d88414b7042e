//! The rows that change an account.
ghost use Rattle.std.specs.Prelude.{◌<◌};
ghost use Rattle.mt_types.specs.declared.limits.TheConstants.{MOST_COMMANDS};

use crate::account::{Account, Changed};
use crate::listing::Listing;
use crate::taken::taken;
use crate::words::{bad, document, good, lines, many_lines, path_at, task_at};
use crate::{many, shown};
use mt_rows::{Row, Rows, Stop};
use mt_types::{MOST_COMMANDS, Refusal};
use std::alloc::Global;

/// An account, and the jobs that were taken from a list since the last row that changed it.
#[derive(Drop)]
pub struct Steps {
    account: Option<Account>,
    listing: Option<Listing>,
}

// `put PATH LENGTH`
fn put(account: Account, alloc: Global, row: &Row) -> Changed
    requires { account.count < MOST_COMMANDS }
{
    let len = row.number(2)?;
    let path = path_at(alloc, row, 1)?;
    account.put(alloc, path, len)
}

// `directory PATH`
fn make_directory(account: Account, alloc: Global, row: &Row) -> Changed
    requires { account.count < MOST_COMMANDS }
{
    account.make_directory(path_at(alloc, row, 1)?)
}

// `make DOCUMENT`
fn make(account: Account, alloc: Global, row: &Row) -> Changed
    requires { account.count < MOST_COMMANDS }
{
    account.make(alloc, document(alloc, row)?)
}

// `add JOB LINE ..`
fn add(account: Account, alloc: Global, row: &Row) -> Changed
    requires { account.count < MOST_COMMANDS }
{
    let job = row.number(1)?;
    let lines = lines(alloc, row)?;
    account.add(alloc, job, &lines)
}

// `lines JOB COUNT`
fn add_many(account: Account, alloc: Global, row: &Row) -> Changed
    requires { account.count < MOST_COMMANDS }
{
    let job = row.number(1)?;
    let lines = many_lines(alloc, row.number(2)?)?;
    account.add(alloc, job, &lines)
}

// `commit JOB PHASE PLACE RECORD ..`
fn commit(account: Account, alloc: Global, row: &Row) -> Changed
    requires { account.count < MOST_COMMANDS }
{
    let task = task_at(row, 1)?;
    let fate = good(alloc, row)?;
    account.commit(alloc, &task, &fate)
}

// `fail JOB PHASE PLACE STATUS`
fn fail(account: Account, alloc: Global, row: &Row) -> Changed
    requires { account.count < MOST_COMMANDS }
{
    let task = task_at(row, 1)?;
    let fate = bad(alloc, row)?;
    account.commit(alloc, &task, &fate)
}

// `close JOB done`, `close JOB cancelled`
fn close(account: Account, alloc: Global, row: &Row, job: u64) -> Changed
    requires { account.count < MOST_COMMANDS }
{
    let cancelled = row.text(2)? == "cancelled";
    account.close(alloc, job, cancelled)
}

// A row that ends something of a job.
fn ended(account: Account, alloc: Global, row: &Row) -> Changed
    requires { account.count < MOST_COMMANDS }
{
    let job = row.number(1)?;
    match row.text(0)? {
        "end" => account.end(alloc, job),
        "finish" => account.finish(job),
        "cancel" => account.cancel(job),
        "close" => close(account, alloc, row, job),
        _ => Err(Stop::NoSuchRow),
    }
}

fn changed(account: Account, alloc: Global, row: &Row) -> Changed
    requires { account.count < MOST_COMMANDS }
{
    match row.text(0)? {
        "put" => put(account, alloc, row),
        "directory" => make_directory(account, alloc, row),
        "make" => make(account, alloc, row),
        "add" => add(account, alloc, row),
        "lines" => add_many(account, alloc, row),
        "commit" => commit(account, alloc, row),
        "fail" => fail(account, alloc, row),
        "fed" => many::feed(account, alloc, row),
        "emitted" => many::emit(account, alloc, row),
        "committed" => many::commit(account, alloc, row),
        "made" => many::make(account, alloc, row),
        _ => ended(account, alloc, row),
    }
}

// The number of commands, or why the last one was not taken.
fn put_answer(
    account: &Account,
    answer: Result<(), Refusal>,
    out: &mut String,
) -> Result<(), Stop> {
    match answer {
        Ok(()) => write!(out, "at {}", account.position())?,
        Err(refusal) => write!(out, "{refusal:?}")?,
    }
    Ok(())
}

fn put_taken(taken: bool, out: &mut String) -> Result<(), Stop> {
    Ok(out.push_str(if taken { "taken" } else { "refused" })?)
}

impl Steps {
    /// No account yet: `new` makes one.
    pub fn new() -> Steps {
        Steps {
            account: None,
            listing: None,
        }
    }

    fn clear(&mut self, alloc: Global) -> Result<(), Stop> {
        self.account = Some(Account::new(alloc)?);
        self.listing = None;
        Ok(())
    }

    // A row that changes the account. Where it stops, there is none any more.
    fn change(&mut self, alloc: Global, row: &Row, out: &mut String) -> Result<(), Stop> {
        self.listing = None;
        let Some(account) = self.account.take() else {
            return Err(Stop::NoSuchRow);
        };
        if account.position() >= MOST_COMMANDS {
            return Err(Stop::NoSuchRow);
        }
        let (account, answer) = changed(account, alloc, row)?;
        put_answer(&account, answer, out)?;
        self.account = Some(account);
        Ok(())
    }

    // `listing COUNT`
    fn begin(&mut self, alloc: Global, row: &Row) -> Result<(), Stop> {
        self.account = None;
        self.listing = Some(Listing::new(alloc, row.number(1)?)?);
        Ok(())
    }

    // `list`
    fn list(&mut self, alloc: Global, out: &mut String) -> Result<(), Stop> {
        let Some(account) = &self.account else {
            return Err(Stop::NoSuchRow);
        };
        let listing = Listing::of(alloc, account)?;
        let count = listing.jobs().len();
        self.listing = Some(listing);
        Ok(write!(out, "{count} jobs")?)
    }

    // A row that takes something of a list.
    fn take(&mut self, alloc: Global, row: &Row, out: &mut String) -> Result<(), Stop> {
        let Some(listing) = self.listing.take() else {
            return Err(Stop::NoSuchRow);
        };
        let (listing, was_taken) = taken(listing, alloc, row)?;
        self.listing = Some(listing);
        put_taken(was_taken, out)
    }

    fn ask_tree(&self, alloc: Global, row: &Row, out: &mut String) -> Result<(), Stop> {
        match &self.account {
            Some(account) => shown::put_at(alloc, account, row, out),
            None => Err(Stop::NoSuchRow),
        }
    }

    fn ask_account(&self, alloc: Global, row: &Row, out: &mut String) -> Result<(), Stop> {
        match &self.account {
            Some(account) => shown::answer(alloc, account.jobs(), row, out),
            None => Err(Stop::NoSuchRow),
        }
    }

    fn ask(&self, alloc: Global, row: &Row, out: &mut String) -> Result<(), Stop> {
        match &self.listing {
            Some(listing) => shown::answer(alloc, listing.jobs(), row, out),
            None => self.ask_account(alloc, row, out),
        }
    }
}

impl Rows for Steps {
    fn answer(
        &mut self,
        alloc: Global,
        _line: &str,
        row: &Row,
        out: &mut String,
    ) -> Result<(), Stop> {
        match row.text(0)? {
            "new" => self.clear(alloc),
            "at" => self.ask_tree(alloc, row, out),
            "job" | "ready" | "item" | "read" | "size" | "order" | "page" | "looked" | "asked" => {
                self.ask(alloc, row, out)
            }
            "listing" => self.begin(alloc, row),
            "list" => self.list(alloc, out),
            "take" | "ended" | "entry" | "entries" | "done" => self.take(alloc, row, out),
            _ => self.change(alloc, row, out),
        }
    }
}

//! Rows of `mt_upload`: an account that is changed and asked step by step. The login is `l`.
ghost use Rattle.std.specs.Prelude.{◌≡◌, ◌<◌, IfOk, true};
ghost use Rattle.mt_path.specs.AccountPath.{IsPath};
ghost use Rattle.mt_types.specs.Limits.{is_index};
ghost use Rattle.mt_types.specs.declared.limits.TheConstants.{MOST_COMMANDS};

use crate::account::{Account, Changed};
use mt_base::Text;
use mt_path::Path;
use mt_rows::{Row, Stop, put_escaped};
use mt_types::{Body, Entry, LAST_PART, MOST_COMMANDS, Object, PartRow, Refusal, Upload};
use std::alloc::{AllocError, Global};

/// Whose names the paths are.
const LOGIN: &str = "l";

/// So many parts are shown at most.
const SHOWN: usize = 4;

/// An account, and the rows that change and ask it.
#[derive(Drop)]
pub struct Steps {
    account: Option<Account>,
}

// The path of a word.
fn path_at(alloc: Global, row: &Row) -> Result<Path, Stop> {
    match Path::plain(alloc, LOGIN, row.bytes(1)?) {
        Ok(path) => Ok(path),
        Err(_) => Err(Stop::NoSuchRow),
    }
}

// The index of a part.
fn index_of(number: u64) -> Result<u16, Stop>
    ensures { IfOk result (λ n. is_index n ≡ true) }
{
    if number <= LAST_PART as u64 {
        Ok(number as u16)
    } else {
        Err(Stop::NoSuchRow)
    }
}

// The content type of a word.
fn type_at(alloc: Global, row: &Row) -> Result<Text, Stop> {
    Ok(Text::from_str(alloc, row.text(2)?)?)
}

// `put PATH LENGTH`
fn put(account: Account, alloc: Global, row: &Row) -> Changed
    requires { account.count < MOST_COMMANDS }
{
    let len = row.number(2)?;
    account.put(alloc, path_at(alloc, row)?, len)
}

// `directory PATH`
fn make_directory(account: Account, alloc: Global, row: &Row) -> Changed
    requires { account.count < MOST_COMMANDS }
{
    account.make_directory(path_at(alloc, row)?)
}

// `remove PATH`
fn remove(account: Account, alloc: Global, row: &Row) -> Changed
    requires { account.count < MOST_COMMANDS }
{
    let path = path_at(alloc, row)?;
    account.remove(&path)
}

// `begin PATH TYPE`
fn begin(account: Account, alloc: Global, row: &Row) -> Changed
    requires { account.count < MOST_COMMANDS }
{
    let content_type = type_at(alloc, row)?;
    account.begin(alloc, path_at(alloc, row)?, content_type)
}

// The three numbers of a row.
fn numbers_of(row: &Row) -> Result<(u64, u64, u64), Stop> {
    Ok((row.number(1)?, row.number(2)?, row.number(3)?))
}

// `part UPLOAD INDEX LENGTH`
fn put_part(account: Account, alloc: Global, row: &Row) -> Changed
    requires { account.count < MOST_COMMANDS }
{
    let (upload, index, len) = numbers_of(row)?;
    account.put_part(alloc, upload, index_of(index)?, len)
}

// The account with a part, where that is taken.
fn with_part(
    account: Account,
    alloc: Global,
    upload: u64,
    index: u64,
    len: u64,
) -> Result<Account, Stop> {
    if account.position() >= MOST_COMMANDS {
        return Err(Stop::NoSuchRow);
    }
    match account.put_part(alloc, upload, index_of(index)?, len)? {
        (account, Ok(())) => Ok(account),
        (_, Err(_)) => Err(Stop::NoSuchRow),
    }
}

// `fall UPLOAD COUNT LENGTH`
fn fall(account: Account, alloc: Global, row: &Row) -> Changed {
    let (upload, count, len) = numbers_of(row)?;
    let mut account = account;
    for index in (0..count).rev() {
        account = with_part(account, alloc, upload, index, len)?;
    }
    Ok((account, Ok(())))
}

// The numbers of the first parts of an upload, as they stand.
fn front(alloc: Global, account: &Account, upload: u64, count: u64) -> Result<Vec<u64>, Stop> {
    let mut numbers = Vec::new(alloc);
    if let Some(upload) = account.uploads().get(upload) {
        for part in upload.parts.as_slice().iter().take(count as usize) {
            numbers.push(part.number)?;
        }
    }
    Ok(numbers)
}

// `commit UPLOAD NUMBER ..`
fn commit(account: Account, alloc: Global, row: &Row) -> Changed
    requires { account.count < MOST_COMMANDS }
{
    let upload = row.number(1)?;
    let numbers = row.numbers(alloc, 2)?;
    account.commit(alloc, upload, &numbers)
}

// `commit-front UPLOAD COUNT`
fn commit_front(account: Account, alloc: Global, row: &Row) -> Changed
    requires { account.count < MOST_COMMANDS }
{
    let upload = row.number(1)?;
    let numbers = front(alloc, &account, upload, row.number(2)?)?;
    account.commit(alloc, upload, &numbers)
}

// `abort UPLOAD`
fn abort(account: Account, alloc: Global, row: &Row) -> Changed
    requires { account.count < MOST_COMMANDS }
{
    account.abort(alloc, row.number(1)?)
}

fn changed(account: Account, alloc: Global, row: &Row) -> Changed
    requires { account.count < MOST_COMMANDS }
{
    match row.text(0)? {
        "put" => put(account, alloc, row),
        "directory" => make_directory(account, alloc, row),
        "remove" => remove(account, alloc, row),
        "begin" => begin(account, alloc, row),
        "part" => put_part(account, alloc, row),
        "fall" => fall(account, alloc, row),
        "commit" => commit(account, alloc, row),
        "commit-front" => commit_front(account, alloc, row),
        "abort" => abort(account, alloc, row),
        _ => Err(Stop::NoSuchRow),
    }
}

// The number of commands, or why the last one was not taken.
fn put_answer(
    account: &Account,
    answer: Result<(), Refusal>,
    out: &mut String,
) -> Result<(), Stop> {
    match answer {
        Ok(()) => write!(out, "at {}", account.position())?,
        Err(refusal) => write!(out, "{refusal:?}")?,
    }
    Ok(())
}

fn put_path(alloc: Global, path: &Path, out: &mut String) -> Result<(), AllocError> {
    put_escaped(out, path.print(alloc, LOGIN)?.as_bytes())
}

// A content type, behind a text.
fn put_type(between: &str, content_type: &Text, out: &mut String) -> Result<(), AllocError> {
    out.push_str(between)?;
    put_escaped(out, content_type.as_bytes())?;
    out.push('"')
}

// How an upload stands.
fn put_upload(alloc: Global, upload: &Upload<Body>, out: &mut String) -> Result<(), Stop> {
    write!(out, "{} ", upload.number)?;
    put_path(alloc, &upload.path, out)?;
    put_type(" \"", &upload.content_type, out)?;
    write!(
        out,
        " {} {:?} {}",
        upload.moment,
        upload.stage,
        upload.parts.len()
    )?;
    Ok(())
}

// The first of these parts.
fn put_parts(parts: &[PartRow<Body>], out: &mut String) -> Result<(), Stop> {
    for part in parts.iter().take(SHOWN) {
        write!(out, "{}: {} {}; ", part.index, part.number, part.body.len)?;
    }
    write!(out, "{}", parts.len())?;
    Ok(())
}

fn put_object(object: &Object<Body>, out: &mut String) -> Result<(), AllocError> {
    write!(
        out,
        "{} {} {}",
        object.number, object.body.len, object.mtime
    )?;
    put_type(" \"", &object.content_type, out)
}

// What stands at a path.
fn put_entry(entry: Option<&Entry<Body>>, out: &mut String) -> Result<(), AllocError> {
    match entry {
        Some(Entry::Object(object)) => put_object(object, out),
        Some(Entry::Directory { mtime }) => write!(out, "directory {mtime}"),
        None => out.push_str("none"),
    }
}

// `at PATH`
fn put_at(alloc: Global, account: &Account, row: &Row, out: &mut String) -> Result<(), Stop> {
    let path = path_at(alloc, row)?;
    Ok(put_entry(account.tree().get(&path), out)?)
}

// `joined UPLOAD COUNT`
fn put_joined(account: &Account, row: &Row, out: &mut String) -> Result<(), Stop> {
    let count = row.number(2)?;
    let len = account.uploads().joined_len(row.number(1)?, count as usize);
    Ok(write!(out, "{len}")?)
}

// The numbers of all uploads.
fn put_all(account: &Account, out: &mut String) -> Result<(), Stop> {
    write!(out, "{}:", account.uploads().len())?;
    for place in 0..account.uploads().len() {
        if let Some(upload) = account.uploads().at(place) {
            write!(out, " {}", upload.number)?;
        }
    }
    Ok(())
}

// The parts of an upload from a place on.
fn put_parts_of(upload: &Upload<Body>, from: u64, out: &mut String) -> Result<(), Stop> {
    match upload.parts.as_slice().get(from as usize..) {
        Some(parts) => put_parts(parts, out),
        None => Err(Stop::NoSuchRow),
    }
}

// An upload, or its parts from a place on.
fn put_found(alloc: Global, account: &Account, row: &Row, out: &mut String) -> Result<(), Stop> {
    match account.uploads().get(row.number(1)?) {
        Some(upload) if row.len() == 2 => put_upload(alloc, upload, out),
        Some(upload) => put_parts_of(upload, row.number(2)?, out),
        None => Ok(out.push_str("none")?),
    }
}

// What a row asks.
fn answer(alloc: Global, account: &Account, row: &Row, out: &mut String) -> Result<(), Stop> {
    match row.text(0)? {
        "uploads" => put_all(account, out),
        "at" => put_at(alloc, account, row, out),
        "joined" => put_joined(account, row, out),
        _ => put_found(alloc, account, row, out),
    }
}

impl Steps {
    /// No account yet: `new` makes one.
    pub fn new() -> Steps {
        Steps { account: None }
    }

    fn clear(&mut self, alloc: Global) -> Result<(), Stop> {
        self.account = Some(Account::new(alloc)?);
        Ok(())
    }

    // A row that changes the account. Where it stops, there is none any more.
    fn change(&mut self, alloc: Global, row: &Row, out: &mut String) -> Result<(), Stop> {
        let Some(account) = self.account.take() else {
            return Err(Stop::NoSuchRow);
        };
        if account.position() >= MOST_COMMANDS {
            return Err(Stop::NoSuchRow);
        }
        let (account, answer) = changed(account, alloc, row)?;
        put_answer(&account, answer, out)?;
        self.account = Some(account);
        Ok(())
    }

    // A row that asks the account.
    fn ask(&self, alloc: Global, row: &Row, out: &mut String) -> Result<(), Stop> {
        match &self.account {
            Some(account) => answer(alloc, account, row, out),
            None => Err(Stop::NoSuchRow),
        }
    }

    /// The answer to a row of this module.
    pub fn answer(&mut self, alloc: Global, row: &Row, out: &mut String) -> Result<(), Stop> {
        match row.text(0)? {
            "new" => self.clear(alloc),
            "look" | "parts" | "uploads" | "joined" | "at" => self.ask(alloc, row, out),
            _ => self.change(alloc, row, out),
        }
    }
}

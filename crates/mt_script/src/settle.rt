//! What is shown until a page is due.
ghost use Rattle.std.specs.Prelude.{◌≡◌, ◌∷◌, [], ◌++◌, IfOk, OnOk, string_bytes};
ghost use Rattle.mt_script.specs.Levels.{first_of, settled, taken};
ghost use Rattle.mt_script.specs.Script.{is_search, listed_by, went_levels, went_text};

use crate::level::Level;
use mt_ask::{Ask, Words};
use mt_base::{Bytes, Duplicate};
use mt_page::PageRows;
use mt_path::Path;
use std::alloc::{AllocError, Global};
use std::collections::VecDeque;

// Whether all below a directory is shown.
fn is_search(ask: &Ask) -> bool
    ensures { result ≡ is_search ask.now }
{
    match ask {
        Ask::Find(_) => true,
        Ask::List(_)
        | Ask::Get(_)
        | Ask::Put(_)
        | Ask::MakeDirectory(_)
        | Ask::Remove(_)
        | Ask::Link { .. }
        | Ask::CreateJob
        | Ask::AddInputs(_)
        | Ask::EndInput(_)
        | Ask::CancelJob(_)
        | Ask::JobStatus(_)
        | Ask::JobOutputs(_) => false,
    }
}

// A directory whose first page is due.
fn one_level(alloc: Global, path: &Path) -> Result<VecDeque<Level>, AllocError>
    ensures { IfOk result (λ levels. levels.items ≡ first_of path.now ∷ []) }
{
    let mut levels = VecDeque::new(alloc);
    levels.push_front(Level::first(alloc, path.copy(alloc)?))?;
    Ok(levels)
}

/// The directory whose first page a listing asks for; none for an ask that is no listing.
pub fn first_levels(alloc: Global, ask: &Ask) -> Result<VecDeque<Level>, AllocError>
    ensures { IfOk result (λ levels. levels.items ≡ listed_by ask.now) }
{
    match ask {
        Ask::List(path) | Ask::Find(path) => one_level(alloc, path),
        Ask::Get(_)
        | Ask::Put(_)
        | Ask::MakeDirectory(_)
        | Ask::Remove(_)
        | Ask::Link { .. }
        | Ask::CreateJob
        | Ask::AddInputs(_)
        | Ask::EndInput(_)
        | Ask::CancelJob(_)
        | Ask::JobStatus(_)
        | Ask::JobOutputs(_) => Ok(VecDeque::new(alloc)),
    }
}

// Appends the lines of rows until a page is due.
fn settle(
    alloc: Global,
    deep: bool,
    login: &str,
    levels: &mut VecDeque<Level>,
    out: &mut String,
) -> Result<(), AllocError>
    ensures text { OnOk result (string_bytes out.new ≡ string_bytes out.old ++ (settled deep login.now levels.old.items).text) }
    ensures levels { OnOk result (levels.new.items ≡ (settled deep login.now levels.old.items).levels) }
{
    while let Some(mut level) = levels.pop_front() {
        if let Some(path) = level.show(alloc, deep, login, out)? {
            levels.push_front(level)?;
            levels.push_front(Level::first(alloc, path))?;
            return Ok(());
        }
        if level.has_more() {
            levels.push_front(level)?;
            return Ok(());
        }
    }
    Ok(())
}

// The page of the first level has come.
fn take_page(alloc: Global, levels: &mut VecDeque<Level>, rows: PageRows) -> Result<(), AllocError>
    ensures { OnOk result (levels.new.items ≡ taken levels.old.items rows) }
{
    if let Some(level) = levels.pop_front() {
        levels.push_front(level.with_page(alloc, rows)?)?;
    }
    Ok(())
}

/// The page of the first level has come, with these rows: what is shown until the next page is due, which the first of the
/// levels then asks for. No level is left where all is shown. After an error, which is want of memory, some levels are lost.
pub fn go_on(
    alloc: Global,
    words: &Words,
    levels: &mut VecDeque<Level>,
    rows: PageRows,
) -> Result<Bytes, AllocError>
    ensures text { IfOk result (λ text. text ≡ went_text words.now levels.old.items rows) }
    ensures levels { OnOk result (levels.new.items ≡ went_levels words.now levels.old.items rows) }
{
    let mut out = String::new(alloc);
    take_page(alloc, levels, rows)?;
    settle(
        alloc,
        is_search(&words.ask),
        words.login.as_str(),
        levels,
        &mut out,
    )?;
    Ok(Bytes::from_vec(out.into_bytes()))
}

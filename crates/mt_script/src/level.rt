//! A directory that is being listed.
ghost use Rattle.std.specs.Prelude.{◌≡◌, ◌++◌, IfOk, OnOk, string_bytes};
ghost use Rattle.std.specs.Option.{option_copied};
ghost use Rattle.mt_script.specs.Levels as words;

use crate::rows::show_rows;
use mt_ask::PageAsk;
use mt_base::Bytes;
use mt_page::{PageRow, PageRows};
use mt_path::Path;
use std::alloc::{AllocError, Global};
use std::collections::VecDeque;
use std::marker::Model;

/// A page of fewer rows is the last one of its directory.
const PAGE_ROWS: usize = 256;

/// A directory that is being listed: the page that comes behind its rows, the rows of the last page that are still to be shown,
/// and whether the next one is due behind them.
#[derive(Drop)]
pub struct Level {
    ask: PageAsk,
    rows: VecDeque<PageRow>,
    more: bool,
}

impl Model for Level {
    ghost use Rattle.mt_script.specs.Levels.{Listed};

    ghost Value = { Listed };

    ghost view = { λ l. record { ask = l.ask; rows = l.rows.items; more = l.more } };
}

// The name of the last of some rows.
fn last_name(alloc: Global, rows: &[PageRow]) -> Result<Option<Bytes>, AllocError>
    ensures { IfOk result (λ name. name ≡ words.last_name rows.now) }
{
    match rows.last() {
        Some(last) => Ok(Some(Bytes::from_slice(alloc, last.name.as_bytes())?)),
        None => Ok(None),
    }
}

// Whether a row is the marker's own.
fn is_marker(marker: Option<&Bytes>, row: &PageRow) -> bool
    ensures { result ≡ words.is_marker (option_copied marker.entry) row.now }
{
    match marker {
        Some(name) => row.name.as_bytes() == name.as_slice(),
        None => false,
    }
}

// Whether the first row is the marker's own.
fn begins_with_marker(marker: Option<&Bytes>, rows: &[PageRow]) -> bool
    ensures { result ≡ words.begins_with_marker (option_copied marker.entry) rows.now }
{
    match rows {
        [first, ..] => is_marker(marker, first),
        [] => false,
    }
}

// The rows of a page without the marker's own.
fn behind_marker(marker: Option<&Bytes>, rows: PageRows) -> VecDeque<PageRow>
    ensures { result.items ≡ words.behind_marker (option_copied marker.entry) rows }
{
    let begins = begins_with_marker(marker, rows.as_slice());
    let mut behind = VecDeque::from_vec(rows.into_vec());
    if begins {
        behind.pop_front();
    }
    behind
}

impl Level {
    /// A directory whose first page is due. It takes no memory yet.
    pub fn first(alloc: Global, directory: Path) -> Level
        ensures { result ≡ words.first_of directory }
    {
        Level {
            ask: PageAsk {
                directory,
                marker: None,
            },
            rows: VecDeque::new(alloc),
            more: true,
        }
    }

    /// The page that comes behind its rows.
    pub fn ask(&self) -> &PageAsk
        ensures { result.now ≡ self.now.ask }
    {
        &self.ask
    }

    // Whether that page is due.
    pub(crate) fn has_more(&self) -> bool
        ensures { result ≡ self.now.more }
    {
        self.more
    }

    // The page has come, with these rows.
    pub(crate) fn with_page(self, alloc: Global, rows: PageRows) -> Result<Level, AllocError>
        ensures { IfOk result (λ l. l ≡ words.page_taken self rows) }
    {
        let Level {
            ask,
            rows: _rows,
            more: _more,
        } = self;
        let PageAsk { directory, marker } = ask;
        let more = rows.len() >= PAGE_ROWS;
        let last = last_name(alloc, rows.as_slice())?;
        let rows = behind_marker(marker.as_ref(), rows);
        Ok(Level {
            ask: PageAsk {
                directory,
                marker: last,
            },
            rows,
            more,
        })
    }

    // Appends the lines of its rows up to the first that is gone into, and tells that directory.
    pub(crate) fn show(
        &mut self,
        alloc: Global,
        deep: bool,
        login: &str,
        out: &mut String,
    ) -> Result<Option<Path>, AllocError>
        ensures text { OnOk result (string_bytes out.new ≡ string_bytes out.old ++ (words.shown deep login.now self.old.ask.directory self.old.rows).text) }
        ensures into { IfOk result (λ into. into ≡ (words.shown deep login.now self.old.ask.directory self.old.rows).into) }
        ensures left { OnOk result (self.new ≡ words.with_rows self.old (words.shown deep login.now self.old.ask.directory self.old.rows).left) }
    {
        show_rows(alloc, deep, login, &self.ask.directory, &mut self.rows, out)
    }
}

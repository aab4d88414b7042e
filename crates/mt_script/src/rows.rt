//! What the rows of a directory show.
ghost use Rattle.std.specs.Prelude.{◌≡◌, ◌++◌, IfOk, OnOk, string_bytes};
ghost use Rattle.std.specs.Result.{result_ok};
ghost use Rattle.mt_path.specs.Names.{child_of};
ghost use Rattle.mt_script.specs.Levels.{entered, is_directory, mark_of, name_shown, row_line, shown};

use mt_page::{PageRow, RowKind};
use mt_path::{Path, PathError};
use std::alloc::{AllocError, Global};
use std::collections::VecDeque;

fn is_directory(kind: RowKind) -> bool
    ensures { result ≡ is_directory kind }
{
    match kind {
        RowKind::Object => false,
        RowKind::Directory => true,
    }
}

// What stands behind a name.
fn mark_of(kind: RowKind) -> &'static str
    ensures { result.now ≡ mark_of kind }
{
    match kind {
        RowKind::Object => "",
        RowKind::Directory => "/",
    }
}

// Appends what a row shows, of a search its whole name.
fn put_name(out: &mut String, deep: bool, dir: &str, row: &PageRow) -> Result<(), AllocError>
    ensures { OnOk result (string_bytes out.new ≡ string_bytes out.old ++ name_shown deep dir.now row.now) }
{
    if deep {
        out.push_str(dir)?;
        out.push_str("/")?;
        out.push_str(row.name.as_str())
    } else {
        out.push_str(row.name.as_str())?;
        out.push_str(mark_of(row.kind))
    }
}

// Appends the line of a row.
fn put_row(out: &mut String, deep: bool, dir: &str, row: &PageRow) -> Result<(), AllocError>
    ensures { OnOk result (string_bytes out.new ≡ string_bytes out.old ++ row_line deep dir.now row.now) }
{
    put_name(out, deep, dir, row)?;
    out.push_str("\n")
}

// The path of a name below a directory, if there is one.
fn child_of(alloc: Global, dir: &Path, name: &[u8]) -> Result<Option<Path>, AllocError>
    ensures { IfOk result (λ p. p ≡ result_ok (child_of dir.now name.now)) }
{
    match dir.child(alloc, name) {
        Ok(path) => Ok(Some(path)),
        Err(PathError::Memory) => Err(AllocError),
        Err(_) => Ok(None),
    }
}

// The directory that is gone into at a row.
fn entered(alloc: Global, deep: bool, dir: &Path, row: &PageRow) -> Result<Option<Path>, AllocError>
    ensures { IfOk result (λ p. p ≡ entered deep dir.now row.now) }
{
    if deep && is_directory(row.kind) {
        child_of(alloc, dir, row.name.as_bytes())
    } else {
        Ok(None)
    }
}

/// Appends the lines of rows up to the first that is gone into, and tells that directory. The rows behind it are left.
pub(crate) fn show_rows(
    alloc: Global,
    deep: bool,
    login: &str,
    dir: &Path,
    rows: &mut VecDeque<PageRow>,
    out: &mut String,
) -> Result<Option<Path>, AllocError>
    ensures text { OnOk result (string_bytes out.new ≡ string_bytes out.old ++ (shown deep login.now dir.now rows.old.items).text) }
    ensures into { IfOk result (λ into. into ≡ (shown deep login.now dir.now rows.old.items).into) }
    ensures left { OnOk result (rows.new.items ≡ (shown deep login.now dir.now rows.old.items).left) }
{
    let name = dir.print(alloc, login)?;
    while let Some(row) = rows.pop_front() {
        put_row(out, deep, name.as_str(), &row)?;
        if let Some(path) = entered(alloc, deep, dir, &row)? {
            return Ok(Some(path));
        }
    }
    Ok(None)
}

//! What stands in a line of a page.
ghost use Rattle.std.specs.Prelude.{◌≡◌, IfOk};
ghost use Rattle.serde_json.specs.View.{view};
ghost use Rattle.mt_page.specs.Pages.{is_below, kind_in, kind_named, name_in, row_in};

use crate::row::{PageRow, RowKind};
use mt_base::Text;
use mt_path::{Path, PathError};
use serde_json::Value;
use std::alloc::{AllocError, Global};

// Whether a name makes a path below a directory.
fn is_below(alloc: Global, dir: &Path, name: &str) -> Result<bool, AllocError>
    ensures { IfOk result (λ is. is ≡ is_below dir.now name.now) }
{
    match dir.child(alloc, name.as_bytes()) {
        Ok(_path) => Ok(true),
        Err(PathError::Memory) => Err(AllocError),
        Err(_) => Ok(false),
    }
}

// The name of a row, where it makes a path below the directory.
fn name_at(alloc: Global, dir: &Path, value: &Value) -> Result<Option<Text>, AllocError>
    ensures { IfOk result (λ name. name ≡ name_in dir.now (view value.now)) }
{
    let Some(found) = value.get("name") else {
        return Ok(None);
    };
    let Some(name) = found.as_str() else {
        return Ok(None);
    };
    if is_below(alloc, dir, name)? {
        Ok(Some(Text::from_str(alloc, name)?))
    } else {
        Ok(None)
    }
}

// The kind that a word names.
fn kind_named(word: &str) -> Option<RowKind>
    ensures { result ≡ kind_named word.now }
{
    match word {
        "object" => Some(RowKind::Object),
        "directory" => Some(RowKind::Directory),
        _ => None,
    }
}

// The kind of a row.
fn kind_at(value: &Value) -> Option<RowKind>
    ensures { result ≡ kind_in (view value.now) }
{
    match value.get("type")?.as_str() {
        Some(word) => kind_named(word),
        None => None,
    }
}

/// The row that a value is.
#[tactic(auto, unfolding(crate::specs::Pages::row_in))]
pub fn row_at(alloc: Global, dir: &Path, value: &Value) -> Result<Option<PageRow>, AllocError>
    ensures { IfOk result (λ row. row ≡ row_in dir.now (view value.now)) }
{
    let Some(name) = name_at(alloc, dir, value)? else {
        return Ok(None);
    };
    match kind_at(value) {
        Some(kind) => Ok(Some(PageRow { name, kind })),
        None => Ok(None),
    }
}

//! A page is read.
ghost use Rattle.std.specs.Prelude.{◌≡◌, IfOk};
ghost use Rattle.mt_page.specs.Pages.{row_of, rows_in, rows_of_page};

use crate::fields::row_at;
use crate::order::is_in_order;
use crate::row::{PageRow, PageRows};
use mt_base::Sequence;
use mt_json::{first_line, read_value};
use mt_path::Path;
use std::alloc::{AllocError, Global};

// The row that a line is.
fn read_row(alloc: Global, dir: &Path, line: &[u8]) -> Result<Option<PageRow>, AllocError>
    ensures { IfOk result (λ row. row ≡ row_of dir.now line.now) }
{
    match read_value(alloc, line)? {
        Some(value) => row_at(alloc, dir, &value),
        None => Ok(None),
    }
}

// The rows that lines are, if each is one.
fn read_rows(alloc: Global, dir: &Path, bytes: &[u8]) -> Result<Option<PageRows>, AllocError>
    ensures { IfOk result (λ rows. rows ≡ rows_in dir.now bytes.now) }
{
    let mut rows = Vec::new(alloc);
    let mut rest = bytes;
    while !rest.is_empty() {
        let Some((line, behind)) = first_line(rest) else {
            return Ok(None);
        };
        let Some(row) = read_row(alloc, dir, line)? else {
            return Ok(None);
        };
        rows.push(row)?;
        rest = behind;
    }
    Ok(Some(Sequence::from_vec(rows)))
}

/// The rows of a page of a directory, from a marker on (no bytes where there is none). It is judged as a whole, and none where
/// it is no page:
///
/// - Each line ends in a line feed, and is a JSON object (RFC 8259) with a text `name` and a text `type`, `object` or
///   `directory`. Other keys are passed over, and of a key that comes twice the last value stands.
/// - Each name makes a path below the directory.
/// - The names rise in the order of their bytes, and none is below the marker, which may be the first of them.
///
/// It takes memory in proportion to the page. The answer is an error for want of memory alone.
pub fn read_page(
    alloc: Global,
    dir: &Path,
    marker: &[u8],
    bytes: &[u8],
) -> Result<Option<PageRows>, AllocError>
    ensures exact { IfOk result (λ rows. rows ≡ rows_of_page dir.now marker.now bytes.now) }
{
    let Some(rows) = read_rows(alloc, dir, bytes)? else {
        return Ok(None);
    };
    if is_in_order(marker, rows.as_slice()) {
        Ok(Some(rows))
    } else {
        Ok(None)
    }
}

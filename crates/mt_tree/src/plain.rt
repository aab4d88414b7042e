//! Listings as scans of a list of rows: short and slow, by which the tree is tested.
ghost use Rattle.std.specs.Prelude.{◌≡◌, ◌&&◌, IfOk, map};
ghost use Rattle.mt_model.specs.Listing.{is_from, listing, name_of, result_set_size};
ghost use Rattle.mt_model.specs.Rows.{is_child, row_of};
ghost use Rattle.mt_tree.specs.Plain.{pairs};

use mt_types::{Duplicate, Path, Row, RowList, Sequence};
use std::alloc::{AllocError, Global};

/// Copies of the rows that [`crate::Tree::page`] lends of a tree that has these rows.
pub fn list<B: Duplicate>(
    alloc: Global,
    rows: &[Row<B>],
    dir: &Path,
    marker: &[u8],
    limit: usize,
) -> Result<RowList<B>, AllocError>
    ensures { IfOk result (λ page. page ≡ map row_of (listing (pairs rows.now) dir.now marker.now limit)) }
{
    let mut page = Sequence::new(alloc);
    for row in rows {
        if page.len() >= limit {
            return Ok(page);
        }
        if !is_listed(dir, marker, &row.path) {
            continue;
        }
        page.push(row.copy(alloc)?)?;
    }
    Ok(page)
}

/// What [`crate::Tree::count`] gives of a tree that has these rows.
pub fn count<B>(rows: &[Row<B>], dir: &Path) -> u64
    ensures { result ≡ result_set_size (pairs rows.now) dir.now }
{
    let mut n = 0;
    for row in rows {
        if is_child(dir, &row.path) {
            n += 1;
        }
    }
    n
}

// Whether a page from a marker on may have this path.
fn is_listed(dir: &Path, marker: &[u8], path: &Path) -> bool
    ensures { result ≡ (is_child dir.now path.now && is_from marker.now path.now) }
{
    is_child(dir, path) && is_from(marker, path)
}

// Whether one path is one below another.
fn is_child(dir: &Path, path: &Path) -> bool
    ensures { result ≡ is_child dir.now path.now }
{
    path.is_under(dir) && path.len() - dir.len() == 1
}

// Whether the name of a path is not below the marker.
fn is_from(marker: &[u8], path: &Path) -> bool
    ensures { result ≡ is_from marker.now path.now }
{
    marker.cmp(name_of(path)).is_le()
}

// The last component of a path; of a root, no bytes.
fn name_of(path: &Path) -> &[u8]
    ensures { result.now ≡ name_of path.now }
{
    if path.is_root() {
        return &[];
    }
    path.part(path.len() - 1)
}

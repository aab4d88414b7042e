//! Pages of a directory.
ghost use Rattle.std.specs.Prelude.{◌≡◌, ◌-◌, ◌==◌, ◌∷◌, [], ◌++◌, All, IfOk, OnOk, length, map, option_copied, position, take};
ghost use Rattle.std.specs.Map.{keys_of};
ghost use Rattle.mt_path.specs.AccountPath.{IsPath};
ghost use Rattle.mt_path.specs.Keys.{IsKey, parts_of, path_at};
ghost use Rattle.mt_model.specs.Rows.{row_of};
ghost use Rattle.mt_tree.specs.AreaRows.{in_area, rows_of};
ghost use Rattle.mt_tree.specs.Keys.{AreKeys, opened};
ghost use Rattle.mt_tree.specs.Walk.{cleared, lent_row, page_of, place_in, rows_after, shown};
ghost use Rattle.mt_tree.specs.Lent.{lent};

use crate::kept::{KeptRow, Map};
use mt_types::{Area, Duplicate, Entry, Path, Row};
use std::alloc::{AllocError, Global};
use std::cmp::Ordering;
use std::collections::btree_map::Range;
use std::ops::Bound;

/// A child of a directory, lent by the tree.
#[derive(Drop)]
pub struct Listed<'a, B> {
    /// The last component of its path.
    pub name: &'a [u8],
    /// What stands there.
    pub entry: &'a Entry<B>,
}

/// Where a key stands, beside those below a directory.
#[derive(Clone, Copy, Debug, PartialEq, Eq)]
pub enum Place {
    /// Not below it.
    Outside,
    /// One below it.
    Child,
    /// Below a child, whose key is the front of so many bytes.
    Below(usize),
}

/// At most `limit` children of the directory at a key, from the first whose name is not below the marker. It walks over
/// the rows from the marker on, and where it meets a descendant of a child, it goes on at the next name.
pub fn page_rows<'a, B>(
    alloc: Global,
    rows: &'a Map<B>,
    dir: &[u8],
    marker: &[u8],
    limit: usize,
) -> Result<Vec<Listed<'a, B>>, AllocError>
    requires keys { AreKeys rows.now.entries }
    requires dir { IsKey dir.now }
    ensures { IfOk result (λ v. map lent v.items ≡ map lent_row (page_of (opened rows.now.entries) (parts_of dir.now) marker.now limit)) }
{
    let front = front_of(alloc, dir)?;
    let start = start_of(alloc, &front, marker)?;
    let mut out = Vec::new(alloc);
    let mut rest = rows.range((Bound::Included(&start), Bound::Unbounded));
    'walk: while out.len() < limit {
        let Some((key, row)) = rest.next() else {
            return Ok(out);
        };
        match place_in(&front, key) {
            Place::Outside => return Ok(out),
            Place::Child => out.push(Listed {
                name: &key[front.len()..],
                entry: row.entry(),
            })?,
            Place::Below(end) => {
                let next = next_key(alloc, &key[..end])?;
                rest = rows.range((Bound::Included(&next), Bound::Unbounded));
            }
        }
    }
    Ok(out)
}

/// Adds the rows of an area above a path, or all of them, at the end of a list, until it has `limit`.
pub fn copy_rows<B: Duplicate>(
    alloc: Global,
    area: Area,
    rows: &Map<B>,
    after: Option<&Path>,
    limit: usize,
    out: &mut Vec<Row<B>>,
) -> Result<(), AllocError>
    requires keys { AreKeys rows.now.entries }
    requires paths { All IsPath (keys_of (rows_of (in_area area (opened rows.now.entries)))) }
    ensures { OnOk result (out.new.items ≡ out.old.items ++ map row_of (take (limit - length out.old.items) (rows_after (option_copied after.entry) (rows_of (in_area area (opened rows.now.entries)))))) }
{
    let Some(path) = after else {
        return push_rows(alloc, area, rows.range(..), limit, out);
    };
    match area.number().cmp(&path.area().number()) {
        Ordering::Less => Ok(()),
        Ordering::Greater => push_rows(alloc, area, rows.range(..), limit, out),
        Ordering::Equal => {
            let start = Vec::from_slice(alloc, path.key())?;
            let rest = rows.range((Bound::Excluded(&start), Bound::Unbounded));
            push_rows(alloc, area, rest, limit, out)
        }
    }
}

// Adds rows at the end of a list, until it has `limit`.
fn push_rows<B: Duplicate>(
    alloc: Global,
    area: Area,
    rest: Range<'_, Vec<u8>, Box<KeptRow<B>>>,
    limit: usize,
    out: &mut Vec<Row<B>>,
) -> Result<(), AllocError>
    requires keys { AreKeys rest }
    requires paths { All IsPath (keys_of (rows_of (in_area area (opened rest)))) }
    ensures { OnOk result (out.new.items ≡ out.old.items ++ map row_of (take (limit - length out.old.items) (rows_of (in_area area (opened rest.entry))))) }
{
    for (key, row) in rest {
        if out.len() >= limit {
            return Ok(());
        }
        out.push(shown(alloc, area, key, row.entry())?)?;
    }
    Ok(())
}

// Where a key stands, beside those that have this front.
fn place_in(front: &[u8], key: &[u8]) -> Place
    ensures { result ≡ place_in front.now key.now }
{
    if !key.starts_with(front) {
        return Place::Outside;
    }
    match zero_at(&key[front.len()..]) {
        Some(at) => Place::Below(front.len() + at),
        None => Place::Child,
    }
}

// The place of the first byte 0.
fn zero_at(bytes: &[u8]) -> Option<usize>
    ensures { result ≡ position (λ b. b == 0) bytes.now }
{
    bytes.iter().position(|b| *b == 0)
}

// What the keys below a directory begin with.
fn front_of(alloc: Global, dir: &[u8]) -> Result<Vec<u8>, AllocError>
    ensures { IfOk result (λ v. v.items ≡ dir.now ++ 0 ∷ []) }
{
    let mut front = Vec::from_slice(alloc, dir)?;
    front.push(0)?;
    Ok(front)
}

// Where the names of a directory from the marker on begin.
fn start_of(alloc: Global, front: &[u8], marker: &[u8]) -> Result<Vec<u8>, AllocError>
    ensures { IfOk result (λ v. v.items ≡ front.now ++ cleared marker.now) }
{
    let mut start = Vec::from_slice(alloc, front)?;
    for b in marker {
        if *b == 0 {
            start.push(1)?;
            return Ok(start);
        }
        start.push(*b)?;
    }
    Ok(start)
}

// Where the next greater names begin.
fn next_key(alloc: Global, key: &[u8]) -> Result<Vec<u8>, AllocError>
    ensures { IfOk result (λ v. v.items ≡ key.now ++ 1 ∷ []) }
{
    let mut next = Vec::from_slice(alloc, key)?;
    next.push(1)?;
    Ok(next)
}

// A row as a copy shows it.
fn shown<B: Duplicate>(
    alloc: Global,
    area: Area,
    key: &[u8],
    entry: &Entry<B>,
) -> Result<Row<B>, AllocError>
    requires path { IsPath (path_at area key.now) }
    requires key { IsKey key.now }
    ensures { IfOk result (λ row. row ≡ shown area (parts_of key.now) entry.now) }
{
    let key = Vec::from_slice(alloc, key)?;
    Ok(Row {
        path: Path::from_key(area, key),
        entry: entry.copy(alloc)?,
    })
}

//! Pages, counts and walks. An object is shown as its name and number, a directory as its name with a slash and its
//! moment.
use crate::words::path_at;
use mt_rows::{Row, Stop, put_escaped};
use mt_tree::{Entry, Listed, Path, RowList, Tree, plain};
use std::alloc::{AllocError, Global};

/// More rows than a tree of this table has.
const ALL: usize = 1_000_000;

/// A call is made so often at most.
const MOST_TIMES: u64 = 10_000_000;

/// Answers a row of this module.
pub fn answer(alloc: Global, tree: &Tree<u64>, row: &Row, out: &mut String) -> Result<(), Stop> {
    match row.text(0)? {
        "at" => put_found(alloc, tree, row, out),
        "list" => put_page(alloc, tree, row, out),
        "scan" => put_scan(alloc, tree, row, out),
        "walk" => put_walk(alloc, tree, row, out),
        "count" => put_count(alloc, tree, row, out),
        "counts" => put_counts(alloc, tree, row, out),
        "pages" => put_pages(alloc, tree, row, out),
        _ => Err(Stop::NoSuchRow),
    }
}

fn put_found(alloc: Global, tree: &Tree<u64>, row: &Row, out: &mut String) -> Result<(), Stop> {
    match tree.get(&path_at(alloc, row, 1)?) {
        Some(Entry::Directory { mtime }) => Ok(write!(out, "Directory {mtime}")?),
        Some(Entry::Object(object)) => Ok(write!(out, "Object {}", object.number)?),
        None => Ok(out.push_str("None")?),
    }
}

fn put_count(alloc: Global, tree: &Tree<u64>, row: &Row, out: &mut String) -> Result<(), Stop> {
    let dir = path_at(alloc, row, 1)?;
    Ok(write!(out, "{}", tree.count(&dir))?)
}

fn put_entry(entry: &Entry<u64>, out: &mut String) -> Result<(), AllocError> {
    match entry {
        Entry::Directory { mtime } => write!(out, "/ {mtime}"),
        Entry::Object(object) => write!(out, " {}", object.number),
    }
}

fn size_at(row: &Row, place: usize) -> Result<usize, Stop> {
    match row.text(place)?.parse::<usize>() {
        Ok(size) => Ok(size),
        Err(_) => Err(Stop::NoSuchRow),
    }
}

// The last component of a path; nothing of a root.
fn put_name(path: &Path, out: &mut String) -> Result<(), AllocError> {
    match path.len() {
        0 => Ok(()),
        count => put_escaped(out, path.part(count - 1)),
    }
}

// Rows, each by the last component of its path.
fn put_rows(rows: &[mt_tree::Row<u64>], out: &mut String) -> Result<(), AllocError> {
    let mut between = " ";
    for row in rows {
        out.push_str(between)?;
        put_name(&row.path, out)?;
        put_entry(&row.entry, out)?;
        between = ", ";
    }
    Ok(())
}

// Children that are lent, each by its name.
fn put_listed(page: &[Listed<u64>], out: &mut String) -> Result<(), AllocError> {
    let mut between = " ";
    for listed in page {
        out.push_str(between)?;
        put_escaped(out, listed.name)?;
        put_entry(listed.entry, out)?;
        between = ", ";
    }
    Ok(())
}

// `list PATH MARKER LIMIT`: the number of children, and a page of them.
fn put_page(alloc: Global, tree: &Tree<u64>, row: &Row, out: &mut String) -> Result<(), Stop> {
    let (marker, limit) = (row.bytes(2)?, size_at(row, 3)?);
    let dir = path_at(alloc, row, 1)?;
    let page = tree.page(alloc, &dir, marker, limit)?;
    write!(out, "{}:", tree.count(&dir))?;
    Ok(put_listed(&page, out)?)
}

// The same, by a scan of all rows.
fn put_scan(alloc: Global, tree: &Tree<u64>, row: &Row, out: &mut String) -> Result<(), Stop> {
    let (marker, limit) = (row.bytes(2)?, size_at(row, 3)?);
    let dir = path_at(alloc, row, 1)?;
    let all = tree.rows_after(alloc, None, ALL)?;
    let page = plain::list(alloc, all.as_slice(), &dir, marker, limit)?;
    write!(out, "{}:", plain::count(all.as_slice(), &dir))?;
    Ok(put_rows(page.as_slice(), out)?)
}

// The first rows above the path that a row names, or of all.
fn rows_from(
    alloc: Global,
    tree: &Tree<u64>,
    row: &Row,
    limit: usize,
) -> Result<RowList<u64>, Stop> {
    if row.len() > 2 {
        let path = path_at(alloc, row, 2)?;
        return Ok(tree.rows_after(alloc, Some(&path), limit)?);
    }
    Ok(tree.rows_after(alloc, None, limit)?)
}

// `walk LIMIT` from the first row of all, `walk LIMIT PATH` from the first row above a path.
fn put_walk(alloc: Global, tree: &Tree<u64>, row: &Row, out: &mut String) -> Result<(), Stop> {
    let limit = size_at(row, 1)?;
    let rows = rows_from(alloc, tree, row, limit)?;
    write!(out, "{}:", rows.len())?;
    Ok(put_rows(rows.as_slice(), out)?)
}

// `counts PATH TIMES`: so many counts, of which the sum is printed.
fn put_counts(alloc: Global, tree: &Tree<u64>, row: &Row, out: &mut String) -> Result<(), Stop> {
    let times = row.number(2)?.min(MOST_TIMES);
    let dir: Path = path_at(alloc, row, 1)?;
    let mut sum: u64 = 0;
    for _ in 0..times {
        sum = sum.wrapping_add(tree.count(&dir));
    }
    Ok(write!(out, "{sum}")?)
}

// `pages PATH LIMIT TIMES`: so many first pages, of which the sum of rows is printed.
fn put_pages(alloc: Global, tree: &Tree<u64>, row: &Row, out: &mut String) -> Result<(), Stop> {
    let limit = size_at(row, 2)?;
    let times = row.number(3)?.min(MOST_TIMES);
    let dir = path_at(alloc, row, 1)?;
    let mut sum: usize = 0;
    for _ in 0..times {
        sum = sum.wrapping_add(tree.page(alloc, &dir, b"", limit)?.len());
    }
    Ok(write!(out, "{sum}")?)
}

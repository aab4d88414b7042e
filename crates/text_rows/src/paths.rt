//! The calls of `mt_path`.
use crate::keys::{of_same_parts, parts_of};
use crate::{keys, put_shown};
use mt_path::{
    Area, Bytes, Duplicate, Path, PathError, is_component, is_login, laws, target_names,
};
use mt_rows::{Row, Stop, put_escaped};
use std::alloc::Global;

/// Answers a row of this module, or else of the next.
pub fn answer(alloc: Global, row: &Row, out: &mut String) -> Result<(), Stop> {
    match row.text(0)? {
        "target" => put_target(alloc, row, out),
        "text" => put_plain(alloc, row, out),
        "names" => put_target_names(alloc, row, out),
        "is-login" => put_shown(out, &is_login(row.bytes(1)?)),
        "is-component" => put_shown(out, &is_component(row.bytes(1)?)),
        "area" => put_area(out, row.bytes(1)?),
        "root" => put_root(alloc, row, out),
        _ => answer_at_path(alloc, row, out),
    }
}

// Answers a row that begins with a path.
fn answer_at_path(alloc: Global, row: &Row, out: &mut String) -> Result<(), Stop> {
    match row.text(0)? {
        "path" => put_parts(alloc, row, out),
        "part" => put_part(alloc, row, out),
        "parent" => put_parent(alloc, row, out),
        "child" => put_child(alloc, row, out),
        "two-paths" => put_relation(alloc, row, out),
        "printed-again" => put_again(alloc, row, out),
        _ => keys::answer(alloc, row, out),
    }
}

/// The path of a text behind the login `l`.
pub fn path_at(alloc: Global, row: &Row, place: usize) -> Result<Path, Stop> {
    match Path::plain(alloc, "l", row.bytes(place)?) {
        Ok(path) => Ok(path),
        Err(_) => Err(Stop::NoSuchRow),
    }
}

/// The text of a path behind the login `l`, or why there is none.
pub fn put_path(
    alloc: Global,
    path: Result<Path, PathError>,
    out: &mut String,
) -> Result<(), Stop> {
    match &path {
        Ok(path) => Ok(put_escaped(out, path.print(alloc, "l")?.as_bytes())?),
        Err(error) => put_shown(out, error),
    }
}

fn put_target(alloc: Global, row: &Row, out: &mut String) -> Result<(), Stop> {
    put_path(alloc, Path::parse(alloc, row.text(1)?, row.bytes(2)?), out)
}

fn put_plain(alloc: Global, row: &Row, out: &mut String) -> Result<(), Stop> {
    put_path(alloc, Path::plain(alloc, row.text(1)?, row.bytes(2)?), out)
}

fn put_target_names(alloc: Global, row: &Row, out: &mut String) -> Result<(), Stop> {
    let names = target_names(alloc, row.text(1)?, row.bytes(2)?);
    match &names {
        Ok(names) => put_names(out, names.as_slice()),
        Err(error) => put_shown(out, error),
    }
}

fn put_names(out: &mut String, names: &[Bytes]) -> Result<(), Stop> {
    write!(out, "{}", names.len())?;
    for name in names {
        out.push(' ')?;
        put_escaped(out, name.as_slice())?;
    }
    Ok(())
}

fn put_area(out: &mut String, name: &[u8]) -> Result<(), Stop> {
    match Area::named(name) {
        Some(area) => Ok(write!(out, "{:?} {} {}", area, area.name(), area.number())?),
        None => Ok(out.push_str("None")?),
    }
}

fn put_root(alloc: Global, row: &Row, out: &mut String) -> Result<(), Stop> {
    match Area::named(row.bytes(1)?) {
        Some(area) => put_path(alloc, Ok(Path::root(alloc, area)), out),
        None => Err(Stop::NoSuchRow),
    }
}

// What a path, its copy and the path of its parts are.
fn put_parts(alloc: Global, row: &Row, out: &mut String) -> Result<(), Stop> {
    let path = path_at(alloc, row, 1)?;
    write!(out, "{:?}, root {}, ", path.area(), path.is_root())?;
    let copy = path.copy(alloc)?;
    let parts = parts_of(alloc, &copy)?;
    put_names(out, &parts)?;
    out.push_str(", ")?;
    put_path(alloc, Ok(of_same_parts(alloc, &copy, &parts)?), out)
}

// One part of a path, and how many it has. A row may ask for parts that there are alone.
fn put_part(alloc: Global, row: &Row, out: &mut String) -> Result<(), Stop> {
    let place = row.number(2)?;
    let path = path_at(alloc, row, 1)?;
    if place >= path.len() as u64 {
        return Err(Stop::NoSuchRow);
    }
    put_escaped(out, path.part(place as usize))?;
    Ok(write!(out, " of {}", path.len())?)
}

fn put_parent(alloc: Global, row: &Row, out: &mut String) -> Result<(), Stop> {
    let path = path_at(alloc, row, 1)?;
    match path.parent(alloc)? {
        Some(parent) => put_path(alloc, Ok(parent), out),
        None => Ok(out.push_str("None")?),
    }
}

fn put_child(alloc: Global, row: &Row, out: &mut String) -> Result<(), Stop> {
    let name = row.bytes(2)?;
    let path = path_at(alloc, row, 1)?;
    put_path(alloc, path.child(alloc, name), out)
}

// How two paths are related.
fn put_relation(alloc: Global, row: &Row, out: &mut String) -> Result<(), Stop> {
    let one = path_at(alloc, row, 1)?;
    let two = path_at(alloc, row, 2)?;
    Ok(write!(
        out,
        "{:?}, equal {}, under {}, same parent {}",
        one.cmp(&two),
        one == two,
        one.is_under(&two),
        one.same_parent(&two)
    )?)
}

fn put_again(alloc: Global, row: &Row, out: &mut String) -> Result<(), Stop> {
    let path = path_at(alloc, row, 1)?;
    put_path(alloc, laws::printed_again(alloc, "l", &path), out)
}

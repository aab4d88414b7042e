//! The rows of the measurement: objects of four names of ten digits, ten directories in each but the last, and 1,000
//! objects in each of these.
use crate::outcome::Fault;
use crate::words::{Load, Order};
use mt_path::{Area, Bytes, Path};
use mt_tree::{Object, Sequence, Text, Tree};
use mt_types::Body;
use std::alloc::{AllocError, Global};

/// An object has the content type of one that was put without any.
const CONTENT_TYPE: &str = "application/octet-stream";

/// The order of the rows takes numbers below this, which is a power of two.
const NUMBERS: u64 = 1 << 20;

/// The place of the next row in a mixed order, below 2 ^ 20: a generator that gives each number once.
pub(crate) fn next_mixed(place: u64) -> u64 {
    (place.wrapping_mul(1_664_525).wrapping_add(1_013_904_223)) % NUMBERS
}

// Ten digits.
fn name(alloc: Global, n: u64) -> Result<Bytes, AllocError> {
    let text = format!(in alloc; "{n:010}")?;
    Ok(Bytes::from_vec(text.into_bytes()))
}

// The path of so many of these names.
fn path_of(alloc: Global, names: &[u64]) -> Result<Path, Fault> {
    let mut path = Path::root(alloc, Area::Stor);
    for n in names {
        let part = name(alloc, *n)?;
        path = path.child(alloc, part.as_slice())?;
    }
    Ok(path)
}

/// The path of an object.
pub(crate) fn path_at(alloc: Global, place: u64) -> Result<Path, Fault> {
    let names = [
        place / 100_000,
        place / 10_000 % 10,
        place / 1_000 % 10,
        place % 1_000,
    ];
    path_of(alloc, &names)
}

/// The path of the directory of an object.
pub(crate) fn directory_at(alloc: Global, place: u64) -> Result<Path, Fault> {
    let names = [place / 100_000, place / 10_000 % 10, place / 1_000 % 10];
    path_of(alloc, &names)
}

// Makes a directory where none stands.
fn make(tree: &mut Tree<Body>, path: Path) -> Result<(), Fault> {
    match tree.may_make_directory(&path) {
        Ok(()) => Ok(tree.make_directory(path, 0)?),
        Err(_) => Ok(()),
    }
}

// Makes the directory of so many names, below one that stands.
fn make_below(alloc: Global, tree: &mut Tree<Body>, names: &[u64]) -> Result<(), Fault> {
    let path = path_of(alloc, names)?;
    make(tree, path)
}

// Makes the directory of an object, and those above it.
fn make_above(alloc: Global, tree: &mut Tree<Body>, place: u64) -> Result<(), Fault> {
    let names = [place / 100_000, place / 10_000 % 10, place / 1_000 % 10];
    make_below(alloc, tree, &names[..1])?;
    make_below(alloc, tree, &names[..2])?;
    make_below(alloc, tree, &names)
}

// Makes the directories of so many objects.
fn make_each(alloc: Global, tree: &mut Tree<Body>, rows: u64) -> Result<(), Fault> {
    for n in 0..rows / 1_000 {
        make_above(alloc, tree, n.wrapping_mul(1_000))?;
    }
    Ok(())
}

/// A tree with the directories of so many objects.
pub(crate) fn directories(alloc: Global, rows: u64) -> Result<Tree<Body>, Fault> {
    let mut tree = Tree::new(alloc)?;
    make_each(alloc, &mut tree, rows)?;
    Ok(tree)
}

// An object of no body.
fn object(alloc: Global, number: u64) -> Result<Object<Body>, AllocError> {
    Ok(Object {
        number,
        body: Body {
            first: 0,
            len: 0,
            md5: [0; 16],
        },
        content_type: Text::from_str(alloc, CONTENT_TYPE)?,
        durability: None,
        metadata: Sequence::new(alloc),
        mtime: number,
    })
}

fn put(alloc: Global, tree: &mut Tree<Body>, place: u64) -> Result<(), Fault> {
    let path = path_at(alloc, place)?;
    tree.may_put(&path)?;
    Ok(tree.put_object(path, object(alloc, place)?)?)
}

/// Puts the objects.
pub(crate) fn put_all(alloc: Global, tree: &mut Tree<Body>, load: Load) -> Result<(), Fault> {
    let mut place = 0;
    for n in 0..numbers_of(load) {
        match load.order {
            Order::Rising => place = n,
            Order::Mixed => place = next_mixed(place),
        }
        if place < load.rows {
            put(alloc, tree, place)?;
        }
    }
    Ok(())
}

// How many numbers the order goes through.
fn numbers_of(load: Load) -> u64 {
    match load.order {
        Order::Rising => load.rows,
        Order::Mixed => load.rows.max(NUMBERS),
    }
}

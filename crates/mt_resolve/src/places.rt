//! Where a task may make an object, and the directories above it.
ghost use Rattle.std.specs.Prelude.{◌≡◌, ◌<◌, ◌^◌, false, length, IfOk, None, OnOk};
ghost use Rattle.std.specs.List.{list_any};
ghost use Rattle.mt_model.specs.Names.{ends_in_output, is_below_stor, is_task_place, paths_above};
ghost use Rattle.mt_model.specs.Resolve.{can_hold_object, is_object_at, with_directory, with_parents};
ghost use Rattle.mt_model.specs.Rows.{IsTree, at, is_directory, parent_refusal, put_refusal};
ghost use Rattle.mt_resolve.specs.Undo.{StaysBack};

use crate::undo::{Undo, make_noted};
use mt_ident::{uuid_number, uuid_text};
use mt_tree::Tree;
use mt_types::{Area, Duplicate, Entry, Path};
use std::alloc::{AllocError, Global};

/// The length of the text of an identifier.
const IDENTIFIER: usize = 36;

// Whether a name ends in the identifier of an output.
fn ends_in_output(name: &[u8]) -> bool
    ensures { result ≡ ends_in_output name.now }
{
    let start = name.len().saturating_sub(IDENTIFIER);
    uuid_number(3, &name[start..]).is_some()
}

// Whether a path of the area of jobs is below `stor` of this job, under a first name that ends in no identifier of an output.
fn is_below_stor(job: u64, path: &Path) -> bool
    requires { job < 2 ^ 62 }
    ensures { result ≡ is_below_stor job path.now.parts }
{
    if path.len() < 3 {
        return false;
    }
    let name = uuid_text(2, job);
    path.part(0) == name.as_slice()
        && path.part(1) == b"stor".as_slice()
        && !ends_in_output(path.part(2))
}

// Whether the tasks of a job may make objects at a path.
fn is_task_place(job: u64, path: &Path) -> bool
    requires { job < 2 ^ 62 }
    ensures { result ≡ is_task_place job path.now.area path.now.parts }
{
    match path.area() {
        Area::Stor | Area::Public => path.len() > 0,
        Area::Jobs => is_below_stor(job, path),
    }
}

// Whether an object stands above a path.
fn has_object_above<B>(alloc: Global, tree: &Tree<B>, path: &Path) -> Result<bool, AllocError>
    ensures { IfOk result (λ b. b ≡ list_any (is_object_at tree.now) (paths_above path.now)) }
{
    for count in 0..path.len() {
        let above = path.front(alloc, count)?;
        if tree.object_at(&above).is_some() {
            return Ok(true);
        }
    }
    Ok(false)
}

/// Whether a task of a job may make an object at a path: no directory stands there, and no object above it.
pub fn can_hold<B>(alloc: Global, tree: &Tree<B>, job: u64, path: &Path) -> Result<bool, AllocError>
    requires { job < 2 ^ 62 }
    ensures { IfOk result (λ b. b ≡ can_hold_object tree.now job path.now) }
{
    if !is_task_place(job, path) {
        return Ok(false);
    }
    if let Some(Entry::Directory { .. }) = tree.get(path) {
        return Ok(false);
    }
    let held = has_object_above(alloc, tree, path)?;
    Ok(!held)
}

// Makes a directory above a path, if nothing stands there.
fn make_parent<B: Duplicate>(
    alloc: Global,
    tree: &mut Tree<B>,
    above: Path,
    moment: u64,
    changes: &mut Vec<Undo<B>>,
) -> Result<(), AllocError>
    requires tree { IsTree tree.old }
    requires parent { parent_refusal tree.old above ≡ None }
    ensures rows { OnOk result (tree.new ≡ with_directory moment tree.old above) }
    ensures back { OnOk result (StaysBack changes.old.items tree.old changes.new.items tree.new) }
{
    if tree.get(&above).is_some() {
        return Ok(());
    }
    make_noted(alloc, tree, above, moment, changes)
}

/// Makes the directories above a path that are missing, where no object stands above it and no directory at it. An object may then
/// be put there.
pub fn make_parents<B: Duplicate>(
    alloc: Global,
    tree: &mut Tree<B>,
    path: &Path,
    moment: u64,
    changes: &mut Vec<Undo<B>>,
) -> Result<(), AllocError>
    requires tree { IsTree tree.old }
    requires below { 0 < length path.now.parts }
    requires clear { list_any (is_object_at tree.old) (paths_above path.now) ≡ false }
    requires free { is_directory (at tree.old path.now) ≡ false }
    ensures rows { OnOk result (tree.new ≡ with_parents tree.old path.now moment) }
    ensures tree { OnOk result (IsTree tree.new) }
    ensures place { OnOk result (put_refusal tree.new path.now ≡ None) }
    ensures back { OnOk result (StaysBack changes.old.items tree.old changes.new.items tree.new) }
{
    for count in 0..path.len() {
        let above = path.front(alloc, count)?;
        make_parent(alloc, tree, above, moment, changes)?;
    }
    Ok(())
}

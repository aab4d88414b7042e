//! The changes of rows that a commit makes, noted so that they can be taken back.
ghost use Rattle.std.specs.Prelude.{◌≡◌, IfOk, None, OnOk, reverse};
ghost use Rattle.mt_types.specs.declared.object.Entry.TheVariants as entry;
ghost use Rattle.mt_model.specs.Rows.{IsTree, make_directory_refusal, object_at, put_refusal, with_row};
ghost use Rattle.mt_resolve.specs.Undo.{MayAllBack, MayOneBack, StaysBack, all_back, one_back};

use mt_tree::Tree;
use mt_types::{Duplicate, Object, Path};
use std::alloc::{AllocError, Global};

/// A change of a row: its path, and the object that stood there before, if one did.
#[derive(Drop)]
pub struct Undo<B> {
    pub path: Path,
    pub was: Option<Object<B>>,
}

// A copy of the object at a path, if one stands there.
fn copy_at<B: Duplicate>(
    alloc: Global,
    tree: &Tree<B>,
    path: &Path,
) -> Result<Option<Object<B>>, AllocError>
    ensures { IfOk result (λ o. o ≡ object_at tree.now path.now) }
{
    match tree.object_at(path) {
        Some(object) => Ok(Some(object.copy(alloc)?)),
        None => Ok(None),
    }
}

/// Puts an object where one may be put, and notes what stood there.
pub fn put_noted<B: Duplicate>(
    alloc: Global,
    tree: &mut Tree<B>,
    path: Path,
    object: Object<B>,
    changes: &mut Vec<Undo<B>>,
) -> Result<(), AllocError>
    requires tree { IsTree tree.old }
    requires place { put_refusal tree.old path ≡ None }
    ensures rows { OnOk result (tree.new ≡ with_row tree.old path (entry.Object object)) }
    ensures back { OnOk result (StaysBack changes.old.items tree.old changes.new.items tree.new) }
{
    let stood = copy_at(alloc, tree, &path)?;
    changes.push(Undo {
        path: path.copy(alloc)?,
        was: stood,
    })?;
    tree.put_object(path, object)
}

/// Makes a directory where one may be made, and notes it.
pub fn make_noted<B: Duplicate>(
    alloc: Global,
    tree: &mut Tree<B>,
    path: Path,
    moment: u64,
    changes: &mut Vec<Undo<B>>,
) -> Result<(), AllocError>
    requires tree { IsTree tree.old }
    requires place { make_directory_refusal tree.old path ≡ None }
    ensures rows { OnOk result (tree.new ≡ with_row tree.old path (entry.Directory moment)) }
    ensures back { OnOk result (StaysBack changes.old.items tree.old changes.new.items tree.new) }
{
    changes.push(Undo {
        path: path.copy(alloc)?,
        was: None,
    })?;
    tree.make_directory(path, moment)
}

// Takes one change back.
fn take_one_back<B: Drop>(tree: &mut Tree<B>, change: Undo<B>) -> Result<(), AllocError>
    requires { MayOneBack change tree.old }
    ensures { OnOk result (tree.new ≡ one_back change tree.old) }
{
    let Undo { path, was } = change;
    match was {
        Some(object) => tree.put_object(path, object),
        None => {
            tree.remove(&path);
            Ok(())
        }
    }
}

/// Takes changes back, from the last to the first.
pub fn take_back<B: Drop>(tree: &mut Tree<B>, changes: Vec<Undo<B>>) -> Result<(), AllocError>
    requires { MayAllBack (reverse changes.items) tree.old }
    ensures { OnOk result (tree.new ≡ all_back (reverse changes.items) tree.old) }
{
    let mut left = changes;
    while let Some(change) = left.pop() {
        take_one_back(tree, change)?;
    }
    Ok(())
}

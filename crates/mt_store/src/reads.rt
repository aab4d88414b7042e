//! Reads.
ghost use Rattle.std.specs.Prelude.{◌≡◌};
ghost use Rattle.mt_store.specs.Decisions.{read_decision, read_now};

use crate::error::StoreError;
use mt_cond::{Conditions, Judged, judge};
use mt_tree::Tree;
use mt_types::{Entry, Object, Path, Refusal};

/// What a reader of a path gets, as objects of type `T`.
#[derive(Clone, Copy, Debug, PartialEq, Eq)]
pub enum Found<T> {
    /// A directory.
    Directory,
    /// This object.
    Object(T),
    /// The reader has this object already (304).
    NotModified(T),
}

/// What a reader of a path gets: the directory that stands there, whatever the conditions are, or the object,
/// as the conditions say. Nothing there is the refusal `NotFound`.
#[tactic(auto, unfolding(crate::specs::Decisions::read_decision))]
pub fn read_object<'a, B>(
    tree: &'a Tree<B>,
    path: &Path,
    conditions: &Conditions,
) -> Result<Found<&'a Object<B>>, StoreError>
    ensures { read_now result ≡ read_decision tree.now path.now conditions.now }
{
    match tree.get(path) {
        None => Err(StoreError::Refused(Refusal::NotFound)),
        Some(Entry::Directory { .. }) => Ok(Found::Directory),
        Some(Entry::Object(object)) => match judge(conditions, Some(object), true) {
            Judged::Go => Ok(Found::Object(object)),
            Judged::NotModified => Ok(Found::NotModified(object)),
            Judged::Failed => Err(StoreError::PreconditionFailed),
        },
    }
}

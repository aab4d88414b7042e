//! Puts, links and deletes.
ghost use Rattle.std.specs.Prelude.{◌≡◌, None, OnOk, IsSome};
ghost use Rattle.mt_cond.specs.declared.conditions.Judged.{Judged};
ghost use Rattle.mt_model.specs.Rows.{at, link_refusal, object_at, put_refusal, remove_refusal};
ghost use Rattle.mt_store.specs.Decisions.{delete_decision, link_decision, put_decision, verdict, verdict_on};

use crate::error::StoreError;
use mt_cond::{Conditions, Judged, judge};
use mt_tree::Tree;
use mt_types::{Entry, Path};

/// Whether an object may be put at a path. The conditions are judged of the object that stands there, or of
/// none. `Ok` says that [`Tree::put_object`] may be called.
#[tactic(auto, unfolding(crate::specs::Decisions::put_decision))]
pub fn may_put<B>(tree: &Tree<B>, path: &Path, conditions: &Conditions) -> Result<(), StoreError>
    ensures decision { result ≡ put_decision tree.now path.now conditions.now }
    ensures allowed { OnOk result (put_refusal tree.now path.now ≡ None) }
{
    tree.may_put(path)?;
    verdict(judge(conditions, tree.object_at(path), false))
}

/// Whether a link to the object at a source may be put at a path. The conditions are judged as for a put of
/// an object there. `Ok` says that [`Tree::put_object`] may be called with what stands at the source.
#[tactic(auto, unfolding(crate::specs::Decisions::link_decision, crate::specs::Decisions::put_decision))]
pub fn may_link<B>(
    tree: &Tree<B>,
    path: &Path,
    source: &Path,
    conditions: &Conditions,
) -> Result<(), StoreError>
    ensures decision { result ≡ link_decision tree.now path.now source.now conditions.now }
    ensures allowed { OnOk result (link_refusal tree.now path.now source.now ≡ None) }
    ensures place { OnOk result (put_refusal tree.now path.now ≡ None) }
    ensures source { OnOk result (IsSome (object_at tree.now source.now)) }
{
    tree.may_be_linked(source)?;
    may_put(tree, path, conditions)
}

/// Whether what stands at a path may be removed. The conditions are judged of an object; where a directory
/// stands they are ignored. `Ok` says that [`Tree::remove`] may be called.
#[tactic(auto, unfolding(crate::specs::Decisions::delete_decision))]
pub fn may_delete<B>(tree: &Tree<B>, path: &Path, conditions: &Conditions) -> Result<(), StoreError>
    ensures decision { result ≡ delete_decision tree.now path.now conditions.now }
    ensures allowed { OnOk result (remove_refusal tree.now path.now ≡ None) }
{
    tree.may_remove(path)?;
    match tree.get(path) {
        Some(Entry::Object(object)) => verdict(judge(conditions, Some(object), false)),
        _ => Ok(()),
    }
}

// What the verdict of the conditions on a write is answered.
fn verdict(judged: Judged) -> Result<(), StoreError>
    ensures { result ≡ verdict judged }
{
    match judged {
        Judged::Go => Ok(()),
        _ => Err(StoreError::PreconditionFailed),
    }
}

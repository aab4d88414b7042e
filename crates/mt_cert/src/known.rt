//! Items by the sums of their bodies.
ghost use Rattle.std.specs.Prelude.{◌≡◌, IfOk, map};
ghost use Rattle.mt_types.specs.Values.{item_with, outcome_with};
ghost use Rattle.mt_certline.specs.Certificate.{good_items};
ghost use Rattle.mt_cert.specs.Certifying.{sum_of_body};

use mt_base::{Duplicate, Sequence};
use mt_certline::Sum;
use mt_types::{Body, Item, Items, Outcome};
use std::alloc::{AllocError, Global};

/// What a body is known by.
fn sum_of(body: &Body) -> Sum
    ensures { result ≡ sum_of_body body.now }
{
    Sum {
        md5: body.md5,
        size: body.len,
    }
}

/// An item.
pub(crate) fn known_item(alloc: Global, item: &Item<Body>) -> Result<Item<Sum>, AllocError>
    ensures { IfOk result (λ i. i ≡ item_with sum_of_body item.now) }
{
    Ok(Item {
        name: item.name.copy(alloc)?,
        root: item.root.copy(alloc)?,
        body: sum_of(&item.body),
        reducer: item.reducer,
    })
}

// Items.
fn known_items(alloc: Global, items: &[Item<Body>]) -> Result<Items<Sum>, AllocError>
    ensures { IfOk result (λ is. is ≡ map (item_with sum_of_body) items.now) }
{
    let mut known = Vec::with_capacity(alloc, items.len())?;
    for item in items {
        known.push(known_item(alloc, item)?)?;
    }
    Ok(Sequence::from_vec(known))
}

/// The outputs of a task; none where it failed.
pub(crate) fn known_outputs(
    alloc: Global,
    outcome: &Outcome<Body>,
) -> Result<Option<Items<Sum>>, AllocError>
    ensures { IfOk result (λ o. o ≡ good_items (outcome_with sum_of_body outcome.now)) }
{
    match outcome {
        Outcome::Good(items) => Ok(Some(known_items(alloc, items.as_slice())?)),
        Outcome::Bad { .. } => Ok(None),
    }
}

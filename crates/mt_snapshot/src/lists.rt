//! Bodies and items, appended to a vector as a snapshot lists them. On an error, which is want of memory, what the vector holds is not
//! said.
ghost use Rattle.std.specs.Prelude.{◌≡◌, ◌++◌, ◌∷◌, false, length, map, OnOk};
ghost use Rattle.std.specs.List.{AllByRecursion, flat_map};
ghost use Rattle.mt_codec.specs.Fields.{body_spelling};
ghost use Rattle.mt_types.specs.Values.{item_with, outcome_with};
ghost use Rattle.mt_snapshot.specs.Records.{FitsItem, FitsOutcome, assets_spelling, item_spelling, outcome_spelling};
ghost use Rattle.mt_snapshot.specs.Values.{moved};

use crate::moves::Moves;
use mt_base::{Bytes, Sequence};
use mt_bytes::{put_u8, put_u16, put_u32, put_u64};
use mt_codec::fields::{failure_code, put_path, put_reducer, put_text};
use mt_types::{Body, Item, Outcome, TaskFailure};
use std::alloc::AllocError;

/// A body, by the place that it has in the other log.
pub fn put_moved<M: Moves>(out: &mut Vec<u8>, body: &Body, moves: &M) -> Result<(), AllocError>
    ensures { OnOk result (out.new.items ≡ out.old.items ++ body_spelling (moved (M.place moves.now) body.now)) }
{
    put_u64(out, moves.first(body))?;
    put_u64(out, body.len)
}

// Bodies, one behind the other.
fn put_bodies<M: Moves>(out: &mut Vec<u8>, bodies: &[Body], moves: &M) -> Result<(), AllocError>
    ensures { OnOk result (out.new.items ≡ out.old.items ++ flat_map body_spelling (map (moved (M.place moves.now)) bodies.now)) }
{
    for body in bodies {
        put_moved(out, body, moves)?;
    }
    Ok(())
}

/// The bodies of the assets of each phase.
pub fn put_assets<M: Moves>(
    out: &mut Vec<u8>,
    assets: &[Sequence<Body>],
    moves: &M,
) -> Result<(), AllocError>
    ensures { OnOk result (out.new.items ≡ out.old.items ++ assets_spelling (map (map (moved (M.place moves.now))) assets.now)) }
{
    for bodies in assets {
        put_bodies(out, bodies.as_slice(), moves)?;
    }
    Ok(())
}

/// An item.
#[tactic(auto, unfolding(crate::specs::Records::item_spelling))]
pub fn put_item<M: Moves>(out: &mut Vec<u8>, item: &Item<Body>, moves: &M) -> Result<(), AllocError>
    requires { FitsItem false item.now }
    ensures { OnOk result (out.new.items ≡ out.old.items ++ item_spelling (item_with (moved (M.place moves.now)) item.now)) }
{
    put_path(out, &item.name)?;
    put_text(out, item.root.as_bytes())?;
    put_reducer(out, item.reducer)?;
    put_moved(out, &item.body, moves)
}

// Items, one behind the other.
fn put_items<M: Moves>(out: &mut Vec<u8>, items: &[Item<Body>], moves: &M) -> Result<(), AllocError>
    requires { AllByRecursion (FitsItem false) items.now }
    ensures { OnOk result (out.new.items ≡ out.old.items ++ flat_map item_spelling (map (item_with (moved (M.place moves.now))) items.now)) }
{
    for item in items {
        put_item(out, item, moves)?;
    }
    Ok(())
}

/// What a committed task came to.
#[tactic(auto, unfolding(crate::specs::Records::outcome_spelling))]
pub fn put_outcome<M: Moves>(
    out: &mut Vec<u8>,
    outcome: &Outcome<Body>,
    moves: &M,
) -> Result<(), AllocError>
    requires { FitsOutcome false outcome.now }
    ensures { OnOk result (out.new.items ≡ out.old.items ++ outcome_spelling (outcome_with (moved (M.place moves.now)) outcome.now)) }
{
    match outcome {
        Outcome::Good(items) => {
            put_u8(out, 0)?;
            put_u16(out, items.len() as u16)?;
            put_items(out, items.as_slice(), moves)
        }
        Outcome::Bad {
            failure,
            status,
            stderr,
        } => {
            put_u8(out, 1)?;
            put_u8(out, failure_code(*failure))?;
            put_u32(out, *status)?;
            put_text(out, stderr.as_slice())
        }
    }
}

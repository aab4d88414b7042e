//! What a commit makes of the records of a task.
ghost use Rattle.std.specs.Prelude.{◌≡◌, ◌+◌, ◌<◌, ◌≤◌, ◌^◌, ◌++◌, ◌∷◌, [], IfOk, None, Ok, OnOk, drop, length, true};
ghost use Rattle.std.specs.List.{filter};
ghost use Rattle.mt_types.specs.declared.object.Entry.TheVariants as entry;
ghost use Rattle.mt_model.specs.Names.{number_at};
ghost use Rattle.mt_model.specs.Resolve.{and_then, fresh_place, kept, resolve, resolved, take_placed, take_record, take_records, take_reference, task_object, with_output};
ghost use Rattle.mt_model.specs.Rows.{IsTree, object_at, put_refusal, with_row};
ghost use Rattle.mt_resolve.specs.Taking.{AreReady, AreReadyFrom, HasReady, IsReady, are_fresh, first_taken, is_fresh, is_output, taken_of, taken_or};
ghost use Rattle.mt_resolve.specs.Undo.{LeadsBack, StaysBack};

use crate::committing::Committing;
use crate::names::anonymous_place;
use crate::places::{can_hold, make_parents};
use crate::undo::{Undo, put_noted, take_back};
use mt_tree::Tree;
use mt_types::{
    Bytes, Duplicate, Fate, Item, NUMBERS_A_COMMAND, Object, Outcome, Path, Sequence, TaskFailure,
    TaskRecord, Text,
};
use std::alloc::{AllocError, Global};

/// The content type of what tasks make.
const TASK_CONTENT_TYPE: &str = "application/octet-stream";

/// How far the records of a task have been taken: the outputs, the number of objects that were made, and the changes of rows.
#[derive(Drop)]
pub struct Taking<B> {
    pub items: Vec<Item<B>>,
    pub made: u64,
    pub changes: Vec<Undo<B>>,
}

// The number of the next object.
fn next_number(c: &Committing, made: u64) -> u64
    requires { made < NUMBERS_A_COMMAND }
    ensures number { result ≡ number_at c.now.position made }
    ensures small { result < 2 ^ 62 }
{
    c.position * NUMBERS_A_COMMAND + made
}

// A new object of a task.
fn task_object<B: Duplicate>(
    alloc: Global,
    c: &Committing,
    number: u64,
    body: &B,
) -> Result<Object<B>, AllocError>
    ensures { IfOk result (λ o. o ≡ task_object number body.now c.now.moment) }
{
    Ok(Object {
        number,
        body: body.copy(alloc)?,
        content_type: Text::from_str(alloc, TASK_CONTENT_TYPE)?,
        durability: None,
        metadata: Sequence::new(alloc),
        mtime: c.moment,
    })
}

// Puts the next object of a task where one may be put.
fn put_next<B: Duplicate>(
    alloc: Global,
    tree: &mut Tree<B>,
    c: &Committing,
    place: Path,
    body: &B,
    taking: &mut Taking<B>,
) -> Result<(), AllocError>
    requires tree { IsTree tree.old }
    requires place { put_refusal tree.old place ≡ None }
    requires few { taking.old.made < NUMBERS_A_COMMAND }
    ensures rows { OnOk result (tree.new ≡ with_row tree.old place (entry.Object (task_object (number_at c.now.position taking.old.made) body.now c.now.moment))) }
    ensures made { OnOk result (taking.new.made ≡ taking.old.made + 1) }
    ensures items { taking.new.items ≡ taking.old.items }
    ensures back { OnOk result (StaysBack taking.old.changes.items tree.old taking.new.changes.items tree.new) }
{
    let number = next_number(c, taking.made);
    let object = task_object(alloc, c, number, body)?;
    put_noted(alloc, tree, place, object, &mut taking.changes)?;
    taking.made += 1;
    Ok(())
}

// Adds an output.
fn give<B: Duplicate>(
    alloc: Global,
    c: &Committing,
    name: Path,
    body: &B,
    reducer: Option<u32>,
    taking: &mut Taking<B>,
) -> Result<(), AllocError>
    ensures items { OnOk result (taking.new.items.items ≡ taking.old.items.items ++ record { name = name; root = c.now.root; body = body.now; reducer = reducer } ∷ []) }
    ensures made { taking.new.made ≡ taking.old.made }
    ensures changes { taking.new.changes ≡ taking.old.changes }
{
    let root = c.root.copy(alloc)?;
    let body = body.copy(alloc)?;
    taking.items.push(Item {
        name,
        root,
        body,
        reducer,
    })?;
    Ok(())
}

// Puts an object of a task at a place, if it can stand there.
fn keep<B: Duplicate>(
    alloc: Global,
    tree: &mut Tree<B>,
    c: &Committing,
    place: &Path,
    body: &B,
    taking: &mut Taking<B>,
) -> Result<Option<TaskFailure>, AllocError>
    requires tree { IsTree tree.old }
    requires few { taking.old.made < NUMBERS_A_COMMAND }
    ensures taken { IfOk result (λ refused. taken_or refused (taken_of tree.new taking.new) ≡ take_placed c.now place.now body.now (taken_of tree.old taking.old)) }
    ensures back { OnOk result (StaysBack taking.old.changes.items tree.old taking.new.changes.items tree.new) }
{
    if !can_hold(alloc, tree, c.job, place)? {
        return Ok(Some(TaskFailure::TaskPlaceRefused));
    }
    make_parents(alloc, tree, place, c.moment, &mut taking.changes)?;
    put_next(alloc, tree, c, place.copy(alloc)?, body, taking)?;
    Ok(None)
}

// Puts an output of a task at a place, if it can stand there.
fn emit_placed<B: Duplicate>(
    alloc: Global,
    tree: &mut Tree<B>,
    c: &Committing,
    place: &Path,
    reducer: Option<u32>,
    body: &B,
    taking: &mut Taking<B>,
) -> Result<Option<TaskFailure>, AllocError>
    requires tree { IsTree tree.old }
    requires few { taking.old.made < NUMBERS_A_COMMAND }
    ensures taken { IfOk result (λ refused. taken_or refused (taken_of tree.new taking.new) ≡ and_then (λ t. Ok (with_output c.now place.now body.now reducer t)) (take_placed c.now place.now body.now (taken_of tree.old taking.old))) }
    ensures back { OnOk result (StaysBack taking.old.changes.items tree.old taking.new.changes.items tree.new) }
{
    let refused = keep(alloc, tree, c, place, body, taking)?;
    if refused.is_some() {
        return Ok(refused);
    }
    give(alloc, c, place.copy(alloc)?, body, reducer, taking)?;
    Ok(None)
}

// Puts an output of a task where an output without a place is to stand.
fn emit_fresh<B: Duplicate>(
    alloc: Global,
    tree: &mut Tree<B>,
    c: &Committing,
    reducer: Option<u32>,
    body: &B,
    taking: &mut Taking<B>,
) -> Result<(), AllocError>
    requires { IsReady c.now (taken_of tree.old taking.old) }
    ensures taken { OnOk result (let t = taken_of tree.old taking.old in taken_of tree.new taking.new ≡ with_output c.now (fresh_place c.now t) body.now reducer (kept c.now (fresh_place c.now t) body.now t)) }
    ensures back { OnOk result (StaysBack taking.old.changes.items tree.old taking.new.changes.items tree.new) }
{
    let place = anonymous_place(alloc, c, next_number(c, taking.made))?;
    let name = place.copy(alloc)?;
    put_next(alloc, tree, c, place, body, taking)?;
    give(alloc, c, name, body, reducer, taking)
}

// Gives an object that stands there as an output.
fn refer<B: Duplicate>(
    alloc: Global,
    tree: &Tree<B>,
    c: &Committing,
    name: &Path,
    taking: &mut Taking<B>,
) -> Result<Option<TaskFailure>, AllocError>
    ensures taken { IfOk result (λ refused. taken_or refused (taken_of tree.now taking.new) ≡ take_reference c.now name.now (taken_of tree.now taking.old) (object_at tree.now name.now)) }
    ensures changes { taking.new.changes ≡ taking.old.changes }
{
    match tree.object_at(name) {
        Some(object) => {
            give(alloc, c, name.copy(alloc)?, &object.body, None, taking)?;
            Ok(None)
        }
        None => Ok(Some(TaskFailure::TaskObjectMissing)),
    }
}

// Takes one record. Where it is refused, the changes so far can still be taken back.
fn take<B: Duplicate>(
    alloc: Global,
    tree: &mut Tree<B>,
    c: &Committing,
    given: &TaskRecord<B>,
    taking: &mut Taking<B>,
) -> Result<Option<TaskFailure>, AllocError>
    requires { IsReady c.now (taken_of tree.old taking.old) }
    ensures taken { IfOk result (λ refused. taken_or refused (taken_of tree.new taking.new) ≡ take_record c.now (taken_of tree.old taking.old) given.now) }
    ensures back { OnOk result (StaysBack taking.old.changes.items tree.old taking.new.changes.items tree.new) }
{
    match given {
        TaskRecord::Emit {
            place: Some(place),
            reducer,
            body,
        } => emit_placed(alloc, tree, c, place, *reducer, body, taking),
        TaskRecord::Emit {
            place: None,
            reducer,
            body,
        } => {
            emit_fresh(alloc, tree, c, *reducer, body, taking)?;
            Ok(None)
        }
        TaskRecord::Keep { place, body } => keep(alloc, tree, c, place, body, taking),
        TaskRecord::Ref { name } => refer(alloc, tree, c, name, taking),
    }
}

// How many outputs records name, for which the list of a task's outputs has room at once: it is kept as it is.
fn outputs_in<B>(records: &[TaskRecord<B>]) -> usize
    ensures { result ≡ length (filter is_output records.now) }
{
    records
        .iter()
        .filter(|record| !matches!(**record, TaskRecord::Keep { .. }))
        .count()
}

// Takes the records in order, up to the first that is refused. The list of outputs has room for so many.
fn take_all<B: Duplicate>(
    alloc: Global,
    tree: &mut Tree<B>,
    c: &Committing,
    records: &[TaskRecord<B>],
    outputs: usize,
) -> Result<(Taking<B>, Option<TaskFailure>), AllocError>
    requires { AreReady c.now tree.old records.now }
    ensures taken { IfOk result (λ r. taken_or r.1 (taken_of tree.new r.0) ≡ take_records c.now records.now (Ok (first_taken tree.old))) }
    ensures back { IfOk result (λ r. LeadsBack r.0.changes.items tree.new tree.old) }
{
    let mut taking = Taking {
        items: Vec::with_capacity(alloc, outputs)?,
        made: 0,
        changes: Vec::new(alloc),
    };
    for record in records {
        let refused = take(alloc, tree, c, record, &mut taking)?;
        if refused.is_some() {
            return Ok((taking, refused));
        }
    }
    Ok((taking, None))
}

// Whether a record is an output without a place, which is never refused.
fn is_fresh<B>(given: &TaskRecord<B>) -> bool
    ensures { result ≡ is_fresh given.now }
{
    matches!(*given, TaskRecord::Emit { place: None, .. })
}

// How many records stand before those at the end that are never refused.
fn refusable<B>(records: &[TaskRecord<B>]) -> usize
    ensures few { result ≤ length records.now }
    ensures fresh { are_fresh (drop result records.now) ≡ true }
{
    let mut count = records.len();
    'records: while count > 0 && is_fresh(&records[count - 1]) {
        count -= 1;
    }
    count
}

// Puts an output of a task where an output without a place is to stand. What stood there isn't noted.
fn put_fresh<B: Duplicate>(
    alloc: Global,
    tree: &mut Tree<B>,
    c: &Committing,
    reducer: Option<u32>,
    body: &B,
    taking: &mut Taking<B>,
) -> Result<(), AllocError>
    requires { IsReady c.now (taken_of tree.old taking.old) }
    ensures { OnOk result (let t = taken_of tree.old taking.old in taken_of tree.new taking.new ≡ with_output c.now (fresh_place c.now t) body.now reducer (kept c.now (fresh_place c.now t) body.now t)) }
{
    let number = next_number(c, taking.made);
    let place = anonymous_place(alloc, c, number)?;
    let name = place.copy(alloc)?;
    let object = task_object(alloc, c, number, body)?;
    tree.put_object(place, object)?;
    taking.made += 1;
    give(alloc, c, name, body, reducer, taking)
}

// Takes an output without a place.
fn take_fresh<B: Duplicate>(
    alloc: Global,
    tree: &mut Tree<B>,
    c: &Committing,
    given: &TaskRecord<B>,
    taking: &mut Taking<B>,
) -> Result<(), AllocError>
    requires ready { IsReady c.now (taken_of tree.old taking.old) }
    requires fresh { is_fresh given.now ≡ true }
    ensures { OnOk result (Ok (taken_of tree.new taking.new) ≡ take_record c.now (taken_of tree.old taking.old) given.now) }
{
    match given {
        TaskRecord::Emit {
            place: None,
            reducer,
            body,
        } => put_fresh(alloc, tree, c, *reducer, body, taking),
        _ => Ok(()),
    }
}

// Takes outputs without a place: none of them is refused, so nothing is noted that could be taken back.
fn take_all_fresh<B: Duplicate>(
    alloc: Global,
    tree: &mut Tree<B>,
    c: &Committing,
    records: &[TaskRecord<B>],
    taking: &mut Taking<B>,
) -> Result<(), AllocError>
    requires ready { AreReadyFrom c.now (taken_of tree.old taking.old) records.now }
    requires fresh { are_fresh records.now ≡ true }
    ensures { OnOk result (Ok (taken_of tree.new taking.new) ≡ take_records c.now records.now (Ok (taken_of tree.old taking.old))) }
{
    for record in records {
        take_fresh(alloc, tree, c, record, taking)?;
    }
    Ok(())
}

// What records come to: all of them are taken, or none, and then the rows are as they were.
fn resolve_records<B: Duplicate>(
    alloc: Global,
    tree: &mut Tree<B>,
    c: &Committing,
    records: &[TaskRecord<B>],
) -> Result<Outcome<B>, AllocError>
    requires { AreReady c.now tree.old records.now }
    ensures { IfOk result (λ outcome. record { rows = tree.new; outcome = outcome } ≡ resolved tree.old (take_records c.now records.now (Ok (first_taken tree.old)))) }
{
    let (front, fresh) = records.split_at(refusable(records));
    let (mut taking, refused) = take_all(alloc, tree, c, front, outputs_in(records))?;
    if let Some(failure) = refused {
        take_back(tree, taking.changes)?;
        return Ok(Outcome::Bad {
            failure,
            status: 0,
            stderr: Bytes::from_vec(Vec::new(alloc)),
        });
    }
    take_all_fresh(alloc, tree, c, fresh, &mut taking)?;
    Ok(Outcome::Good(Sequence::from_vec(taking.items)))
}

/// What the commit of a fate leaves of the rows, and what the task came to. On an error, which is want of memory, the rows may be
/// any.
pub fn resolve<B: Duplicate>(
    alloc: Global,
    tree: &mut Tree<B>,
    c: &Committing,
    fate: &Fate<B>,
) -> Result<Outcome<B>, AllocError>
    requires { HasReady c.now tree.old fate.now }
    ensures { IfOk result (λ outcome. record { rows = tree.new; outcome = outcome } ≡ resolve c.now tree.old fate.now) }
{
    match fate {
        Fate::Good(records) => resolve_records(alloc, tree, c, records.as_slice()),
        Fate::Bad {
            failure,
            status,
            stderr,
        } => Ok(Outcome::Bad {
            failure: *failure,
            status: *status,
            stderr: stderr.copy(alloc)?,
        }),
    }
}

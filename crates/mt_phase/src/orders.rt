//! The order of a task.
ghost use Rattle.std.specs.Prelude.{◌≡◌, ◌<◌, ◌^◌, [], IfOk, IfSome, Some, true, option_copied, unwrap_or};
ghost use Rattle.std.specs.List.{slice_get};
ghost use Rattle.mt_model.specs.Feed.{feed};
ghost use Rattle.mt_model.specs.Tasks.{is_task, reducer_at};
ghost use Rattle.mt_phase.specs.Items.{HasReducer, object_of, root_of};
ghost use Rattle.mt_phase.specs.Orders.{asset_sizes, input_size, order_at};

use crate::base::base;
use mt_base::{Duplicate, Sequence, Text};
use mt_path::Path;
use mt_spawn::{AssetSize, Order};
use mt_types::{Body, Item, Job, PhaseKind, Task};
use std::alloc::{AllocError, Global};

/// The order of a task of this job. `item` is what its phase's feed has at the task's place, which a map task reads;
/// of a reduce task it is not looked at. `input` is the number of bytes that the task reads.
pub fn order_of(
    alloc: Global,
    login: &str,
    job: &Job<Body>,
    task: Task,
    item: Option<&Item<Body>>,
    input: u64,
) -> Result<Order, AllocError>
    requires number { job.now.number < 2 ^ 62 }
    requires task { is_task job.now task.phase task.place ≡ true }
    requires item { option_copied item ≡ slice_get (feed job.now task.phase) task.place }
    requires input { IfSome (slice_get job.now.document.phases task.phase) (λ p. input ≡ input_size (λ b. b.len) p.kind (feed job.now task.phase) task.place) }
    ensures { IfOk result (λ o. order_at (λ b. b.len) login.now job.now task ≡ Some o) }
{
    let phase = &job.document.phases.as_slice()[task.phase as usize];
    let bodies = bodies(job, task.phase);
    let assets = sizes(alloc, login, phase.assets.as_slice(), bodies)?;
    let root = root(phase.kind, item);
    Ok(Order {
        job: job.number,
        phase: task.phase,
        exec: phase.exec.copy(alloc)?,
        init: phase.init.copy(alloc)?,
        base: base(alloc, login, job.number, root, task.phase)?,
        object: object(alloc, login, phase.kind, item)?,
        reducer: reducer(phase.kind, task.place),
        input,
        assets: Sequence::from_vec(assets),
    })
}

// What the assets of a phase held when the job was made.
fn bodies(job: &Job<Body>, phase: u32) -> &[Body]
    ensures { result.now ≡ unwrap_or (slice_get job.now.assets phase) [] }
{
    match job.assets.as_slice().get(phase as usize) {
        Some(bodies) => bodies.as_slice(),
        None => &[],
    }
}

// The names of assets, each with its size.
fn sizes(
    alloc: Global,
    login: &str,
    names: &[Path],
    bodies: &[Body],
) -> Result<Vec<AssetSize>, AllocError>
    ensures { IfOk result (λ v. v.items ≡ asset_sizes (λ b. b.len) login.now names.now bodies.now) }
{
    let mut sizes = Vec::new(alloc);
    for k in 0..names.len().min(bodies.len()) {
        sizes.push(AssetSize {
            name: names[k].print(alloc, login)?,
            len: bodies[k].len,
        })?;
    }
    Ok(sizes)
}

// What the names of outputs begin with that come of this item, or of a reducer.
fn root<'a>(kind: PhaseKind, item: Option<&'a Item<Body>>) -> &'a str
    ensures { result.now ≡ root_of kind (option_copied item.entry) }
{
    match (kind, item) {
        (PhaseKind::Map, Some(item)) => item.root.as_str(),
        (PhaseKind::Map, None) => "",
        (PhaseKind::Reduce { .. }, _) => "reduce",
    }
}

// The name of the object that a map task reads.
fn object(
    alloc: Global,
    login: &str,
    kind: PhaseKind,
    item: Option<&Item<Body>>,
) -> Result<Option<Text>, AllocError>
    ensures { IfOk result (λ o. o ≡ object_of login.now kind (option_copied item.entry)) }
{
    match (kind, item) {
        (PhaseKind::Map, Some(item)) => Ok(Some(item.name.print(alloc, login)?)),
        (PhaseKind::Map, None) | (PhaseKind::Reduce { .. }, _) => Ok(None),
    }
}

// The number of a reducer.
fn reducer(kind: PhaseKind, place: u64) -> Option<u32>
    requires { HasReducer kind place }
    ensures { result ≡ reducer_at kind place }
{
    match kind {
        PhaseKind::Map => None,
        PhaseKind::Reduce { .. } => Some(place as u32),
    }
}

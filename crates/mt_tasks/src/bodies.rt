//! The bodies that come with the order of a task: of what it reads, and then of its assets.
ghost use Rattle.std.specs.Prelude.{◌≡◌, ◌<◌, ℕ, List, [], length, map, true, option_copied, IfSome, IfNone, Some};
ghost use Rattle.std.specs.List.{slice_get, zip};
ghost use Rattle.std.specs.Option.{option_map_or};
ghost use Rattle.mt_model.specs.Laws.{KeepsSize};
ghost use Rattle.mt_model.specs.State.{job_at};
ghost use Rattle.mt_types.specs.declared.body.Body.{Body};
ghost use Rattle.mt_tasks.specs.Reading.{IsPlace, bodies_of_task, left_at, task_assets};
ghost use Rattle.mt_tasks.specs.Standing.{is_ready_in};

use mt_base::Sequence;
use mt_engine::Engine;
use mt_path::Path;
use mt_types::{Body, Job, Phase, Task};

/// A place in the bodies of a task: in the one at `next`, behind so many of its bytes.
#[derive(Clone, Copy)]
pub(crate) struct Place {
    pub(crate) next: usize,
    pub(crate) at: u64,
}

// A phase of a job.
fn phase_at(job: &Job<Body>, phase: u32) -> Option<&Phase>
    ensures { option_copied result ≡ slice_get job.now.document.phases phase }
{
    job.document.phases.as_slice().get(phase as usize)
}

// What its assets held when the job was made.
fn held_by(job: &Job<Body>, phase: u32) -> Option<&Sequence<Body>>
    ensures { option_copied result ≡ slice_get job.now.assets phase }
{
    job.assets.as_slice().get(phase as usize)
}

// The assets of a phase of a job, and what they held when it was made.
fn assets_of<'a>(engine: &'a Engine, task: &Task) -> Option<(&'a [Path], &'a [Body])>
    ensures none { IfNone result (option_map_or (task_assets task.now.phase) (job_at engine.now.state.jobs task.now.job) [] ≡ []) }
    ensures some { IfSome result (λ r. option_map_or (task_assets task.now.phase) (job_at engine.now.state.jobs task.now.job) [] ≡ map (λ a. a.1) (zip r.0.now r.1.now)) }
{
    let job = engine.jobs().get(task.job)?;
    let phase = phase_at(job, task.phase)?;
    let bodies = held_by(job, task.phase)?;
    Some((phase.assets.as_slice(), bodies.as_slice()))
}

// One of these bodies.
fn one_of(bodies: &[Body], k: usize) -> Option<&Body>
    ensures { option_copied result ≡ slice_get bodies.now k }
{
    bodies.get(k)
}

// One of the assets of these names, counted from 0.
fn held_at<'a>(names: &[Path], bodies: &'a [Body], k: usize) -> Option<&'a Body>
    ensures { option_copied result ≡ slice_get (map (λ a. a.1) (zip names.now bodies.now)) k }
{
    if k < names.len() {
        one_of(bodies, k)
    } else {
        None
    }
}

// One of the assets of a task, counted from 0.
fn asset_at<'a>(engine: &'a Engine, task: &Task, k: usize) -> Option<&'a Body>
    ensures { option_copied result ≡ slice_get (option_map_or (task_assets task.now.phase) (job_at engine.now.state.jobs task.now.job) []) k }
{
    let (names, bodies) = assets_of(engine, task)?;
    held_at(names, bodies, k)
}

// How many assets a task has.
fn asset_count(engine: &Engine, task: &Task) -> usize
    ensures { result ≡ length (option_map_or (task_assets task.now.phase) (job_at engine.now.state.jobs task.now.job) []) }
{
    match assets_of(engine, task) {
        Some((names, bodies)) => names.len().min(bodies.len()),
        None => 0,
    }
}

/// The number of the bodies that come with the order of a ready task; none where it isn't below 2 ^ 64, which no memory holds.
pub(crate) fn body_count(engine: &Engine, task: &Task) -> Option<usize>
    requires { is_ready_in engine.now.state task.now ≡ true }
    ensures { IfSome result (λ n. n ≡ length (bodies_of_task engine.now.state.jobs task.now)) }
{
    let items = engine.jobs().read_count(task);
    let assets = asset_count(engine, task);
    let count = items.checked_add(assets)?;
    Some(count)
}

// One of the bodies that come with the order of a ready task, counted from 0, by look-ups.
#[tactic(auto, using(crate::proofs::Passing::place_in, crate::proofs::Passing::place_past))]
fn body_at<'a>(engine: &'a Engine, task: &Task, k: usize) -> Option<&'a Body>
    requires { is_ready_in engine.now.state task.now ≡ true }
    ensures { option_copied result ≡ slice_get (bodies_of_task engine.now.state.jobs task.now) k }
{
    if let Some(item) = engine.jobs().read(task, k) {
        return Some(&item.body);
    }
    let items = engine.jobs().read_count(task);
    asset_at(engine, task, k - items)
}

/// The next byte of a task from a place on, as the body that has it, and its place; none where nothing is left.
pub(crate) fn next_body<'a>(
    engine: &'a Engine,
    task: &Task,
    count: usize,
    mut place: Place,
) -> (Place, Option<&'a Body>)
    requires ready { is_ready_in engine.now.state task.now ≡ true }
    requires count { count ≡ length (bodies_of_task engine.now.state.jobs task.now) }
    requires place { IsPlace (bodies_of_task engine.now.state.jobs task.now) place }
    ensures same { (content : Body → List ℕ) → KeepsSize content →
        left_at content (bodies_of_task engine.now.state.jobs task.now) result.0 ≡ left_at content (bodies_of_task engine.now.state.jobs task.now) place }
    ensures within { IsPlace (bodies_of_task engine.now.state.jobs task.now) result.0 }
    ensures some { IfSome (option_copied result.1) (λ b. (slice_get (bodies_of_task engine.now.state.jobs task.now) result.0.next ≡ Some b) × (result.0.at < b.len)) }
    ensures none { IfNone (option_copied result.1) ((content : Body → List ℕ) → left_at content (bodies_of_task engine.now.state.jobs task.now) result.0 ≡ []) }
{
    let _ = count;
    while let Some(body) = body_at(engine, task, place.next) {
        if place.at < body.len {
            return (place, Some(body));
        }
        place = Place {
            next: place.next + 1,
            at: 0,
        };
    }
    (place, None)
}

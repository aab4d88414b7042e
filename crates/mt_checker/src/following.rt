//! A line behind those so far.
ghost use Rattle.std.specs.Prelude.{◌≡◌, Some, false, IfOk, Option, map, option_and_then, slice_get};
ghost use Rattle.std.specs.Option.{option_map_or};
ghost use Rattle.mt_model.specs.Rows.{is_path};
ghost use Rattle.mt_certline.specs.Certificate.{Progress};
ghost use Rattle.mt_certline.specs.declared.line.Line.TheVariants as line;
ghost use Rattle.mt_checker.specs.Stages as stages;
ghost use Rattle.mt_checker.specs.Stages.{Listing, Stage, after, after_in, first};
ghost use Rattle.mt_checker.specs.Kept.{Gathers, HasListed, IsNamed, IsOpenSheet, Keeps, Stands, kinds_of};

use crate::feed::Gathered;
use crate::opening::{kind_at, open, settle};
use crate::sheet::PhaseSheet;
use crate::state::{Standing, State};
use mt_certline::{Line, Listed, Sum};
use mt_path::Path;
use mt_types::{Item, Phase, PhaseKind};
use std::alloc::{AllocError, Global};

// How the phases cut their feeds.
fn kinds_of(alloc: Global, phases: &[Phase]) -> Result<Vec<PhaseKind>, AllocError>
    ensures { IfOk result (λ v. v.items ≡ kinds_of phases.now) }
{
    let mut kinds = Vec::new(alloc);
    for phase in phases {
        kinds.push(phase.kind)?;
    }
    Ok(kinds)
}

// The phases of the first line.
fn begun(alloc: Global, phases: &[Phase]) -> Result<State, AllocError>
    ensures { IfOk result (λ t. Keeps t (Some (Listing (stages.begun phases.now)))) }
{
    let kinds = kinds_of(alloc, phases)?;
    let feed = Gathered::new(alloc, kind_at(&kinds, 0))?;
    Ok(State::Inputs { kinds, feed })
}

// The first line.
fn begin(alloc: Global, line: Line) -> Result<State, AllocError>
    ensures { IfOk result (λ t. Keeps t (first line)) }
{
    match line {
        Line::Begin { number: _, phases } => begun(alloc, phases.as_slice()),
        Line::Input(_) => Ok(State::Refused),
        Line::Task(_) => Ok(State::Refused),
        Line::Output(_) => Ok(State::Refused),
        Line::End => Ok(State::Refused),
    }
}

// An input behind others.
fn input(kinds: Vec<PhaseKind>, feed: Gathered, item: Item<Sum>) -> Result<State, AllocError>
    ensures { IfOk result (λ t. (g : Progress) → Gathers g kinds.items feed → Keeps t (after_in g (line.Input item))) }
{
    let mut feed = feed;
    feed.add(item)?;
    Ok(State::Inputs { kinds, feed })
}

// A task of the phase that is being listed.
fn task(
    alloc: Global,
    kinds: Vec<PhaseKind>,
    sheet: PhaseSheet,
    task: Listed,
) -> Result<State, AllocError>
    ensures { IfOk result (λ t. (g : Progress) → kinds_of g.phases ≡ kinds.items → IsOpenSheet g sheet → Keeps t (after_in g (line.Task task))) }
{
    let mut sheet = sheet;
    if !sheet.may_follow(&task) {
        return Ok(State::Refused);
    }
    sheet.enter(task)?;
    let standing = settle(alloc, &kinds, sheet)?;
    Ok(State::Listed { kinds, standing })
}

// Whether the path is the next of these.
fn is_due(names: &[Path], next: usize, path: &Path) -> bool
    ensures { result ≡ option_map_or (λ n. is_path n path.now) (slice_get names.now next) false }
{
    match names.get(next) {
        Some(name) => name == path,
        None => false,
    }
}

// The name of an output.
fn output(kinds: Vec<PhaseKind>, names: Vec<Path>, next: usize, path: &Path) -> State
    ensures { (g : Progress) → kinds_of g.phases ≡ kinds.items → IsNamed g names.items next → Keeps result (after_in g (line.Output path.now)) }
{
    if next >= names.len() {
        return State::Refused;
    }
    let due = is_due(&names, next, path);
    if !due {
        return State::Refused;
    }
    let standing = Standing::Names {
        names,
        next: next + 1,
    };
    State::Listed { kinds, standing }
}

// The last line, behind so many names.
fn end_names(names: &[Path], next: usize) -> State
    ensures { (g : Progress) → IsNamed g names.now next → Keeps result (after_in g line.End) }
{
    if next == names.len() {
        State::Done
    } else {
        State::Refused
    }
}

// The last line.
fn end(standing: &Standing) -> State
    ensures { (g : Progress) → Stands g standing.now → Keeps result (after_in g line.End) }
{
    match standing {
        Standing::Names { names, next } => end_names(names, *next),
        Standing::Phase(_) => State::Refused,
    }
}

// A task behind the inputs.
fn list_task(
    alloc: Global,
    kinds: Vec<PhaseKind>,
    standing: Standing,
    listed: Listed,
) -> Result<State, AllocError>
    ensures { IfOk result (λ t. (g : Progress) → kinds_of g.phases ≡ kinds.items → Stands g standing → Keeps t (after_in g (line.Task listed))) }
{
    match standing {
        Standing::Phase(sheet) => task(alloc, kinds, sheet, listed),
        Standing::Names { names: _, next: _ } => Ok(State::Refused),
    }
}

// The name of an output behind the inputs.
fn list_output(kinds: Vec<PhaseKind>, standing: Standing, path: &Path) -> State
    ensures { (g : Progress) → kinds_of g.phases ≡ kinds.items → Stands g standing → Keeps result (after_in g (line.Output path.now)) }
{
    match standing {
        Standing::Names { names, next } => output(kinds, names, next, path),
        Standing::Phase(_) => State::Refused,
    }
}

// A line behind tasks or outputs.
fn list(
    alloc: Global,
    kinds: Vec<PhaseKind>,
    standing: Standing,
    line: Line,
) -> Result<State, AllocError>
    ensures { IfOk result (λ t. (g : Progress) → HasListed g kinds.items standing → Keeps t (after_in g line)) }
{
    match line {
        Line::Begin {
            number: _,
            phases: _,
        } => Ok(State::Refused),
        Line::Input(_) => Ok(State::Refused),
        Line::Task(listed) => list_task(alloc, kinds, standing, listed),
        Line::Output(path) => Ok(list_output(kinds, standing, &path)),
        Line::End => Ok(end(&standing)),
    }
}

// A line behind the inputs so far.
fn gather(
    alloc: Global,
    kinds: Vec<PhaseKind>,
    feed: Gathered,
    line: Line,
) -> Result<State, AllocError>
    ensures { IfOk result (λ t. (g : Progress) → Gathers g kinds.items feed → Keeps t (after_in g line)) }
{
    match line {
        Line::Begin {
            number: _,
            phases: _,
        } => Ok(State::Refused),
        Line::Input(item) => input(kinds, feed, item),
        Line::Task(listed) => {
            let standing = open(alloc, &kinds, 0, feed)?;
            list_task(alloc, kinds, standing, listed)
        }
        Line::Output(path) => {
            let standing = open(alloc, &kinds, 0, feed)?;
            Ok(list_output(kinds, standing, &path))
        }
        Line::End => {
            let standing = open(alloc, &kinds, 0, feed)?;
            Ok(end(&standing))
        }
    }
}

/// What is kept behind a line.
pub(crate) fn follow(alloc: Global, state: State, line: Line) -> Result<State, AllocError>
    ensures { IfOk result (λ t. (s : Option Stage) → Keeps state s → Keeps t (option_and_then (λ u. after u line) s)) }
{
    match state {
        State::Start => begin(alloc, line),
        State::Inputs { kinds, feed } => gather(alloc, kinds, feed, line),
        State::Listed { kinds, standing } => list(alloc, kinds, standing, line),
        State::Done => Ok(State::Refused),
        State::Refused => Ok(State::Refused),
    }
}

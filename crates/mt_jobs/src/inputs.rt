//! The inputs of a job, and their end.
ghost use Rattle.std.specs.Prelude.{◌≡◌, ◌++◌, ◌∷◌, [], false, true, IfOk, None, OnOk, Some};
ghost use Rattle.mt_types.specs.WellMade.{IsDocument};
ghost use Rattle.mt_model.specs.JobSteps.{with_end, with_line, with_lines};
ghost use Rattle.mt_model.specs.Listing.{name_of};
ghost use Rattle.mt_model.specs.Names.{root_of_input};
ghost use Rattle.mt_model.specs.Tasks.{is_running};
ghost use Rattle.mt_sched.specs.Plans.{plan_at};
ghost use Rattle.mt_sched.specs.PlanOfJob.{inputs_in, plan_of};
ghost use Rattle.mt_sched.specs.PlanSteps.{ended_plan, grown, with_plan};
ghost use Rattle.mt_feeds.specs.FedJob.{IsKept};

use crate::jobs::{Jobs, find};
use mt_feeds::FedJob;
use mt_sched::Sched;
use mt_tree::Tree;
use mt_types::{Duplicate, InputLine, Item, Job, Path, Text};
use std::alloc::{AllocError, Global};
use std::str;

/// What the names of outputs begin with has at most so many bytes.
const LONGEST_ROOT: usize = 200;

// What the names of outputs begin with that come of this input.
fn root_of_input(alloc: Global, path: &Path) -> Result<Text, AllocError>
    ensures { IfOk result (λ t. t ≡ root_of_input path.now) }
{
    let name = last_of(path);
    if name.len() <= LONGEST_ROOT {
        Text::from_str(alloc, name)
    } else {
        Text::from_str(alloc, "input")
    }
}

// The last component of a path; of a root, no bytes.
fn last_of(path: &Path) -> &str
    ensures { result.now ≡ name_of path.now }
{
    if path.len() == 0 {
        return "";
    }
    match str::from_utf8(path.part(path.len() - 1)) {
        Ok(text) => text,
        Err(_) => unreachable!(),
    }
}

// Adds a line that names an object, with the body that the object holds.
fn add_input<B: Duplicate>(
    alloc: Global,
    job: &mut Job<B>,
    path: &Path,
    body: &B,
) -> Result<(), AllocError>
    ensures { OnOk result (job.new ≡ record job.old { inputs = job.old.inputs ++ record { name = path.now; root = root_of_input path.now; body = body.now; reducer = None } ∷ [] }) }
{
    let name = path.copy(alloc)?;
    let root = root_of_input(alloc, path)?;
    let body = body.copy(alloc)?;
    job.inputs.push(Item {
        name,
        root,
        body,
        reducer: None,
    })
}

// Adds a line that names none.
fn add_missing<B>(alloc: Global, job: &mut Job<B>, line: &InputLine) -> Result<(), AllocError>
    ensures { OnOk result (job.new ≡ record job.old { missing = job.old.missing ++ line.now ∷ [] }) }
{
    job.missing.push(line.copy(alloc)?)
}

// Adds one posted line, and to the queue a place for it where it is an input.
fn add_line<B: Duplicate>(
    alloc: Global,
    tree: &Tree<B>,
    job: &mut Job<B>,
    sched: &mut Sched,
    line: &InputLine,
) -> Result<(), AllocError>
    ensures job { OnOk result (job.new ≡ with_line tree.now job.old line.now) }
    ensures plans { OnOk result (sched.new ≡ with_plan sched.old job.old.number (λ plan. grown plan 0 (inputs_in tree.now (line.now ∷ [])))) }
{
    match line {
        InputLine::Named(path) => match tree.object_at(path) {
            Some(object) => {
                add_input(alloc, job, path, &object.body)?;
                sched.feed(job.number, 0, 1)
            }
            None => add_missing(alloc, job, line),
        },
        InputLine::Other(_) => add_missing(alloc, job, line),
    }
}

// Adds posted lines, in order.
fn add_all<B: Duplicate>(
    alloc: Global,
    tree: &Tree<B>,
    job: &mut Job<B>,
    sched: &mut Sched,
    lines: &[InputLine],
) -> Result<(), AllocError>
    ensures job { OnOk result (job.new ≡ with_lines tree.now lines.now job.old) }
    ensures plans { OnOk result (sched.new ≡ with_plan sched.old job.old.number (λ plan. grown plan 0 (inputs_in tree.now lines.now))) }
{
    for line in lines {
        add_line(alloc, tree, job, sched, line)?;
    }
    Ok(())
}

// Ends the input of a job, and lays out the shares of what may then begin.
fn end_input_of<B>(alloc: Global, kept: &mut FedJob<B>, sched: &mut Sched) -> Result<(), AllocError>
    requires kept { IsKept kept.old }
    requires document { IsDocument kept.old.job.document }
    requires runs { is_running kept.old.job ≡ true }
    requires open { kept.old.job.ended ≡ false }
    requires plan { plan_at sched.old kept.old.job.number ≡ Some (plan_of kept.old.job) }
    ensures job { OnOk result (kept.new.job ≡ with_end kept.old.job) }
    ensures kept { OnOk result (IsKept kept.new) }
    ensures plans { OnOk result (sched.new ≡ with_plan sched.old kept.old.job.number ended_plan) }
{
    sched.end(kept.job.number)?;
    kept.end();
    match sched.get(kept.job.number) {
        Some(queue) => kept.open(alloc, queue),
        None => Ok(()),
    }
}

impl<B: Duplicate> Jobs<B> {
    ghost use Rattle.std.specs.Prelude.{◌≡◌, ℕ, All, None, OnOk};
    ghost use Rattle.mt_types.specs.WellMade.{IsDocument};
    ghost use Rattle.mt_types.specs.declared.command.Command.TheVariants.{AddInputs, EndInput};
    ghost use Rattle.mt_model.specs.CommandStep.{change};
    ghost use Rattle.mt_model.specs.JobSteps.{add_inputs_refusal, input_refusal, job_refusal};
    ghost use Rattle.mt_model.specs.Rows.{Rows};
    ghost use Rattle.mt_model.specs.Sound.{Sound};
    ghost use Rattle.mt_model.specs.State.{job_at};
    ghost use Rattle.mt_jobs.specs.Shown.{state_of};

    /// Posts lines to a job. [`Jobs::may_add_inputs`] has to allow it. A line that names an object becomes an input, with the body that the
    /// object holds now; any other is missing. On an error, which is want of memory, the jobs may be any.
    pub fn add_inputs(
        &mut self,
        alloc: Global,
        tree: &Tree<B>,
        job: u64,
        lines: &[InputLine],
    ) -> Result<(), AllocError>
        requires allowed { job_refusal (job_at self.old job) (add_inputs_refusal lines.now) ≡ None }
        requires sound { All Sound self.old }
        ensures { OnOk result ((position moment : ℕ) → state_of position tree.now self.new ≡ change (state_of position tree.now self.old) (AddInputs job lines.now moment)) }
    {
        let Some(place) = find(&self.jobs, job) else {
            return Ok(());
        };
        match add_all(
            alloc,
            tree,
            &mut self.jobs[place].job,
            &mut self.sched,
            lines,
        ) {
            Ok(()) => Ok(()),
            Err(error) => {
                *self = Jobs::new(alloc);
                Err(error)
            }
        }
    }

    /// Ends the input of a job. [`Jobs::may_end_input`] has to allow it. The shares of a reduce phase that may begin by it are laid out, at
    /// the cost of what it reads. On an error, which is want of memory, the jobs may be any.
    pub fn end_input(&mut self, alloc: Global, job: u64) -> Result<(), AllocError>
        requires allowed { job_refusal (job_at self.old job) input_refusal ≡ None }
        requires documents { All (λ j. IsDocument j.document) self.old }
        ensures { OnOk result ((position moment : ℕ) (rows : Rows B) → state_of position rows self.new ≡ change (state_of position rows self.old) (EndInput job moment)) }
    {
        let Some(place) = find(&self.jobs, job) else {
            return Ok(());
        };
        match end_input_of(alloc, &mut self.jobs[place], &mut self.sched) {
            Ok(()) => Ok(()),
            Err(error) => {
                *self = Jobs::new(alloc);
                Err(error)
            }
        }
    }
}

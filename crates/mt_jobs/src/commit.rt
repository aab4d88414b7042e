//! The commit of a task.
ghost use Rattle.std.specs.Prelude.{◌≡◌, ◌+◌, true, IfOk, OnOk, Some, length};
ghost use Rattle.mt_types.specs.WellMade.{IsDocument};
ghost use Rattle.mt_types.specs.declared.limits.TheConstants.{MOST_COMMANDS};
ghost use Rattle.mt_model.specs.Feed.{items_of};
ghost use Rattle.mt_model.specs.JobSteps.{task_root, with_entry};
ghost use Rattle.mt_model.specs.Resolve.{resolve};
ghost use Rattle.mt_model.specs.Sound.{Sound};
ghost use Rattle.mt_model.specs.Tasks.{is_ready};
ghost use Rattle.mt_sched.specs.Plans.{plan_at};
ghost use Rattle.mt_sched.specs.PlanOfJob.{plan_of};
ghost use Rattle.mt_sched.specs.PlanSteps.{committed_in, grown, with_plan};
ghost use Rattle.mt_jobs.specs.Committed.{HasCommitted};
ghost use Rattle.mt_resolve.specs.Committing.{IsCommitting, committing_of};
ghost use Rattle.mt_feeds.specs.FedJob.{AreFeeds, IsKept};
ghost use Rattle.mt_resolve.specs.Taking.{HasReady};

use crate::jobs::{Jobs, find};
use mt_feeds::{FedJob, count_of};
use mt_resolve::{Committing, resolve};
use mt_sched::Sched;
use mt_tree::Tree;
use mt_types::{Duplicate, Fate, PhaseKind, Task, Text, TraceEntry};
use std::alloc::{AllocError, Global};

// What the names of a task's outputs begin with.
fn task_root<B>(alloc: Global, kept: &FedJob<B>, phase: u32, place: u64) -> Result<Text, AllocError>
    requires { AreFeeds kept.now.job kept.now.feeds.items }
    ensures { IfOk result (λ t. t ≡ task_root kept.now.job phase place) }
{
    let Some(of_phase) = kept.job.document.phases.as_slice().get(phase as usize) else {
        return Text::from_str(alloc, "");
    };
    match of_phase.kind {
        PhaseKind::Map => match kept.item(phase, place) {
            Some(item) => item.root.copy(alloc),
            None => Text::from_str(alloc, ""),
        },
        PhaseKind::Reduce { count: _ } => Text::from_str(alloc, "reduce"),
    }
}

// A task of a job is committed with this entry: in its trace, in its queue and in what is kept beside it.
pub(crate) fn enter<B: Drop>(
    alloc: Global,
    kept: &mut FedJob<B>,
    sched: &mut Sched,
    entry: TraceEntry<B>,
) -> Result<(), AllocError>
    requires kept { IsKept kept.old }
    requires sound { Sound kept.old.job }
    requires document { IsDocument kept.old.job.document }
    requires ready { is_ready kept.old.job entry.phase entry.place ≡ true }
    requires plan { plan_at sched.old kept.old.job.number ≡ Some (plan_of kept.old.job) }
    ensures job { OnOk result (kept.new.job ≡ with_entry entry kept.old.job) }
    ensures kept { OnOk result (IsKept kept.new) }
    ensures plans { OnOk result (sched.new ≡ with_plan sched.old kept.old.job.number (λ plan. grown (committed_in plan entry.phase entry.place) (entry.phase + 1) (length (items_of entry.outcome)))) }
{
    let number = kept.job.number;
    let phase = entry.phase;
    let task = Task {
        job: number,
        phase,
        place: entry.place,
    };
    let count = count_of(&entry.outcome);
    kept.enter(entry)?;
    sched.commit(&task)?;
    sched.feed(number, phase + 1, count as u64)?;
    match sched.get(number) {
        Some(queue) => kept.open(alloc, queue),
        None => Ok(()),
    }
}

// The entry of a task, and the rows that its commit leaves.
fn entry_of<B: Duplicate>(
    alloc: Global,
    tree: &mut Tree<B>,
    kept: &FedJob<B>,
    task: &Task,
    fate: &Fate<B>,
    position: u64,
    moment: u64,
) -> Result<TraceEntry<B>, AllocError>
    requires kept { AreFeeds kept.now.job kept.now.feeds.items }
    requires committing { let c = committing_of kept.now.job task.now.phase task.now.place position moment in IsCommitting c × HasReady c tree.old fate.now }
    ensures { IfOk result (λ e. let r = resolve (committing_of kept.now.job task.now.phase task.now.place position moment) tree.old fate.now in (e ≡ record { phase = task.now.phase; place = task.now.place; position = position; outcome = r.outcome }) × (tree.new ≡ r.rows)) }
{
    let c = Committing {
        job: kept.job.number,
        phase: task.phase,
        root: task_root(alloc, kept, task.phase, task.place)?,
        position,
        moment,
    };
    let outcome = resolve(alloc, tree, &c, fate)?;
    Ok(TraceEntry {
        phase: task.phase,
        place: task.place,
        position,
        outcome,
    })
}

// Commits a task of a job.
fn commit_task<B: Duplicate>(
    alloc: Global,
    tree: &mut Tree<B>,
    kept: &mut FedJob<B>,
    sched: &mut Sched,
    task: &Task,
    fate: &Fate<B>,
    position: u64,
    moment: u64,
) -> Result<(), AllocError>
    requires kept { IsKept kept.old }
    requires sound { Sound kept.old.job }
    requires document { IsDocument kept.old.job.document }
    requires ready { is_ready kept.old.job task.now.phase task.now.place ≡ true }
    requires plan { plan_at sched.old kept.old.job.number ≡ Some (plan_of kept.old.job) }
    requires committing { let c = committing_of kept.old.job task.now.phase task.now.place position moment in IsCommitting c × HasReady c tree.old fate.now }
    ensures { OnOk result (HasCommitted kept.old tree.old sched.old task.now.phase task.now.place fate.now position moment kept.new tree.new sched.new) }
{
    let entry = entry_of(alloc, tree, kept, task, fate, position, moment)?;
    enter(alloc, kept, sched, entry)
}

impl<B: Duplicate> Jobs<B> {
    ghost use Rattle.std.specs.Prelude.{◌≡◌, ◌<◌, None, OnOk};
    ghost use Rattle.mt_types.specs.WellMade.{IsWellMadeFate};
    ghost use Rattle.mt_types.specs.declared.command.Command.TheVariants.{Commit};
    ghost use Rattle.mt_model.specs.CommandStep.{change};
    ghost use Rattle.mt_model.specs.JobSteps.{commit_refusal, job_refusal};
    ghost use Rattle.mt_model.specs.Lawful.{LawfulJobs, LawfulRows};
    ghost use Rattle.mt_model.specs.State.{job_at};
    ghost use Rattle.mt_jobs.specs.Shown.{state_of};

    /// Commits a task with its fate, as the command after so many. [`Jobs::may_commit`] has to allow it. The records are taken one
    /// after another; where one is refused, the tree gets back what stood before, and the task has failed. On an error, which is want
    /// of memory, rows and jobs may be any.
    pub fn commit(
        &mut self,
        alloc: Global,
        tree: &mut Tree<B>,
        task: &Task,
        fate: &Fate<B>,
        position: u64,
        moment: u64,
    ) -> Result<(), AllocError>
        requires room { position < MOST_COMMANDS }
        requires made { IsWellMadeFate fate.now }
        requires allowed { job_refusal (job_at self.old task.now.job) (commit_refusal task.now.phase task.now.place) ≡ None }
        requires rows { LawfulRows position tree.old }
        requires jobs { LawfulJobs position tree.old self.old }
        ensures { OnOk result (state_of position tree.new self.new ≡ change (state_of position tree.old self.old) (Commit task.now.job task.now.phase task.now.place fate.now moment)) }
    {
        let Some(at) = find(&self.jobs, task.job) else {
            return Ok(());
        };
        match commit_task(
            alloc,
            tree,
            &mut self.jobs[at],
            &mut self.sched,
            task,
            fate,
            position,
            moment,
        ) {
            Ok(()) => Ok(()),
            Err(error) => {
                *self = Jobs::new(alloc);
                Err(error)
            }
        }
    }
}

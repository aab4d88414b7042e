//! New jobs.
ghost use Rattle.std.specs.Prelude.{◌≡◌, ◌<◌, ◌^◌, ◌++◌, ◌∷◌, [], map, IfOk, None, OnOk};
ghost use Rattle.std.specs.BTreeSet.{insert_key};
ghost use Rattle.std.specs.List.{list_any};
ghost use Rattle.std.specs.Ordering.{nat_cmp};
ghost use Rattle.mt_types.specs.declared.limits.TheConstants.{MOST_COMMANDS};
ghost use Rattle.mt_model.specs.JobSteps.{bodies_of, has_large_assets, lacks_asset, new_job, new_job_refusal, with_folders};
ghost use Rattle.mt_model.specs.Names.{job_folder, job_stor};
ghost use Rattle.mt_model.specs.Rows.{IsTree, at};
ghost use Rattle.mt_sched.specs.Plans.{IsAbove};
ghost use Rattle.mt_sched.specs.PlanOfJob.{kinds_of};
ghost use Rattle.mt_sched.specs.PlanSteps.{first_plan};
ghost use Rattle.mt_tree.specs.Answer.{answer};

use crate::jobs::Jobs;
use mt_feeds::FedJob;
use mt_resolve::{job_folder, job_stor};
use mt_sched::Sched;
use mt_tree::Tree;
use mt_types::{
    AssetBodies, Body, Duplicate, Job, JobDocument, NUMBERS_A_COMMAND, Phase, Refusal, Sequence,
};
use std::alloc::{AllocError, Global};
use std::collections::BTreeSet;

/// The assets of one phase have at most so many bytes together.
const MOST_ASSET_BYTES: u64 = 16_777_216;

// Whether an asset of a phase is no object.
fn phase_lacks_asset<B>(tree: &Tree<B>, phase: &Phase) -> bool
    ensures { result ≡ lacks_asset tree.now phase.now }
{
    for name in phase.assets.as_slice() {
        if tree.object_at(name).is_none() {
            return true;
        }
    }
    false
}

// Whether an asset of one of these phases is no object.
fn document_lacks_asset<B>(tree: &Tree<B>, phases: &[Phase]) -> bool
    ensures { result ≡ list_any (lacks_asset tree.now) phases.now }
{
    for phase in phases {
        if phase_lacks_asset(tree, phase) {
            return true;
        }
    }
    false
}

// Whether the assets of a phase have too many bytes.
fn phase_has_large_assets(tree: &Tree<Body>, phase: &Phase) -> bool
    ensures { result ≡ has_large_assets (λ b. b.len) tree.now phase.now }
{
    let mut total: u64 = 0;
    for name in phase.assets.as_slice() {
        if let Some(object) = tree.object_at(name) {
            if object.body.len > MOST_ASSET_BYTES - total {
                return true;
            }
            total += object.body.len;
        }
    }
    false
}

// Whether those of one of these phases have.
fn document_has_large_assets(tree: &Tree<Body>, phases: &[Phase]) -> bool
    ensures { result ≡ list_any (has_large_assets (λ b. b.len) tree.now) phases.now }
{
    for phase in phases {
        if phase_has_large_assets(tree, phase) {
            return true;
        }
    }
    false
}

/// Whether a job of this document may be made: `NotFound` where an asset is no object, `AssetsTooLarge` where those of one phase
/// have more than 16 MiB together. It looks each asset up once or twice, and takes no memory.
pub fn may_make_job(tree: &Tree<Body>, document: &JobDocument) -> Result<(), Refusal>
    ensures { result ≡ answer (new_job_refusal (λ b. b.len) tree.now document.now) }
{
    if document_lacks_asset(tree, document.phases.as_slice()) {
        return Err(Refusal::NotFound);
    }
    if document_has_large_assets(tree, document.phases.as_slice()) {
        return Err(Refusal::AssetsTooLarge);
    }
    Ok(())
}

// The bodies that the assets of a phase hold.
fn phase_bodies<B: Duplicate>(
    alloc: Global,
    tree: &Tree<B>,
    phase: &Phase,
) -> Result<Sequence<B>, AllocError>
    ensures { IfOk result (λ s. s ≡ bodies_of tree.now phase.now) }
{
    let mut bodies = Vec::new(alloc);
    for name in phase.assets.as_slice() {
        if let Some(object) = tree.object_at(name) {
            bodies.push(object.body.copy(alloc)?)?;
        }
    }
    Ok(Sequence::from_vec(bodies))
}

// Those of each phase.
fn document_bodies<B: Duplicate>(
    alloc: Global,
    tree: &Tree<B>,
    phases: &[Phase],
) -> Result<AssetBodies<B>, AllocError>
    ensures { IfOk result (λ s. s ≡ map (bodies_of tree.now) phases.now) }
{
    let mut all = Vec::new(alloc);
    for phase in phases {
        all.push(phase_bodies(alloc, tree, phase)?)?;
    }
    Ok(Sequence::from_vec(all))
}

// A job that was just made.
fn new_job<B: Duplicate>(
    alloc: Global,
    tree: &Tree<B>,
    number: u64,
    document: JobDocument,
    moment: u64,
) -> Result<Job<B>, AllocError>
    ensures { IfOk result (λ j. j ≡ new_job tree.now number document moment) }
{
    let assets = document_bodies(alloc, tree, document.phases.as_slice())?;
    Ok(Job {
        number,
        document,
        assets,
        inputs: Sequence::new(alloc),
        missing: Sequence::new(alloc),
        ended: false,
        cancelled: false,
        created: moment,
        done: None,
        trace: Sequence::new(alloc),
    })
}

// Makes the two folders of a job.
fn make_folders<B: Drop>(
    alloc: Global,
    tree: &mut Tree<B>,
    number: u64,
    moment: u64,
) -> Result<(), AllocError>
    requires number { number < 2 ^ 62 }
    requires tree { IsTree tree.old }
    requires folder { at tree.old (job_folder number) ≡ None }
    requires stor { at tree.old (job_stor number) ≡ None }
    ensures { OnOk result (tree.new ≡ with_folders tree.old number moment) }
{
    tree.make_directory(job_folder(alloc, number)?, moment)?;
    tree.make_directory(job_stor(alloc, number)?, moment)
}

// Adds a job behind the others, with its queue.
pub(crate) fn push_job<B: Drop>(
    alloc: Global,
    jobs: &mut Vec<FedJob<B>>,
    sched: &mut Sched,
    running: &mut BTreeSet<u64>,
    kept: FedJob<B>,
) -> Result<(), AllocError>
    requires above { IsAbove kept.job.number sched.old }
    ensures jobs { OnOk result (jobs.new.items ≡ jobs.old.items ++ kept ∷ []) }
    ensures sched { OnOk result (sched.new ≡ sched.old ++ (kept.job.number, first_plan (kinds_of kept.job.document.phases)) ∷ []) }
    ensures running { OnOk result (running.new.keys ≡ insert_key nat_cmp running.old.keys kept.job.number) }
{
    let number = kept.job.number;
    running.insert(number)?;
    sched.add(alloc, number, kept.job.document.phases.as_slice())?;
    jobs.push(kept)?;
    Ok(())
}

impl<B: Duplicate> Jobs<B> {
    ghost use Rattle.std.specs.Prelude.{◌≡◌, ◌<◌, OnOk};
    ghost use Rattle.mt_types.specs.declared.command.Command.TheVariants.{NewJob};
    ghost use Rattle.mt_model.specs.CommandStep.{change};
    ghost use Rattle.mt_model.specs.Lawful.{LawfulJobs, LawfulRows};
    ghost use Rattle.mt_jobs.specs.Shown.{state_of};

    /// Makes a job, with its two folders, as the command after so many. [`may_make_job`] has to allow it for the state to stay lawful.
    /// On an error, which is want of memory, rows and jobs may be any.
    pub fn make_job(
        &mut self,
        alloc: Global,
        tree: &mut Tree<B>,
        document: JobDocument,
        position: u64,
        moment: u64,
    ) -> Result<(), AllocError>
        requires room { position < MOST_COMMANDS }
        requires rows { LawfulRows position tree.old }
        requires jobs { LawfulJobs position tree.old self.old }
        ensures { OnOk result (state_of position tree.new self.new ≡ change (state_of position tree.old self.old) (NewJob document moment)) }
    {
        let number = position * NUMBERS_A_COMMAND;
        let kept = FedJob::of(alloc, new_job(alloc, tree, number, document, moment)?)?;
        make_folders(alloc, tree, number, moment)?;
        match push_job(
            alloc,
            &mut self.jobs,
            &mut self.sched,
            &mut self.running,
            kept,
        ) {
            Ok(()) => Ok(()),
            Err(error) => {
                *self = Jobs::new(alloc);
                Err(error)
            }
        }
    }
}

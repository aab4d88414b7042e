//! The end of a job: finished, cancelled, or closed with its archive.
ghost use Rattle.std.specs.Prelude.{◌≡◌, ◌<◌, ◌^◌, IfOk, IsTrue, OnErr, OnOk};
ghost use Rattle.std.specs.BTreeSet.{insert_key};
ghost use Rattle.std.specs.Set.{remove_key};
ghost use Rattle.std.specs.BTreeMap.{is_at};
ghost use Rattle.std.specs.Ordering.{nat_cmp};
ghost use Rattle.mt_types.specs.declared.object.Entry.TheVariants as entry;
ghost use Rattle.mt_types.specs.declared.limits.TheConstants.{MOST_COMMANDS};
ghost use Rattle.mt_model.specs.JobSteps.{archive_bodies, archive_names, archive_object, done_at, with_archive_from};
ghost use Rattle.mt_model.specs.Lawful.{is_archive_name};
ghost use Rattle.mt_model.specs.Names.{in_job_folder};
ghost use Rattle.mt_model.specs.Rows.{with_row};
ghost use Rattle.mt_sched.specs.PlanSteps.{without_plan};
ghost use Rattle.mt_jobs.specs.Archive.{MayArchive};
ghost use Rattle.mt_feeds.specs.FedJob.{IsKept};

use crate::jobs::{Jobs, find};
use mt_feeds::FedJob;
use mt_resolve::in_job_folder;
use mt_sched::Sched;
use mt_tree::Tree;
use mt_types::{Archive, NUMBERS_A_COMMAND, Object, Sequence, Text};
use std::alloc::{AllocError, Global};
use std::collections::BTreeSet;

// A job is done: its queue is dropped, and its number moves from one set to the other. On want of memory nothing has changed.
fn mark_done<B>(
    kept: &mut FedJob<B>,
    sched: &mut Sched,
    running: &mut BTreeSet<u64>,
    done: &mut BTreeSet<u64>,
    cancelled: bool,
    moment: u64,
) -> Result<(), AllocError>
    requires { IsKept kept.old }
    ensures job { OnOk result (kept.new.job ≡ done_at moment cancelled kept.old.job) }
    ensures kept { OnOk result (IsKept kept.new) }
    ensures sched { OnOk result (sched.new ≡ without_plan sched.old kept.old.job.number) }
    ensures running { OnOk result (running.new.keys ≡ remove_key (is_at (nat_cmp kept.old.job.number)) running.old.keys) }
    ensures done { OnOk result (done.new.keys ≡ insert_key nat_cmp done.old.keys kept.old.job.number) }
    ensures err { OnErr result ((kept.new ≡ kept.old) × (sched.new ≡ sched.old) × (running.new ≡ running.old) × (done.new.keys ≡ done.old.keys)) }
{
    let number = kept.job.number;
    done.insert(number)?;
    kept.set_done(cancelled, moment);
    sched.remove(number);
    running.remove(&number);
    Ok(())
}

// An object of an archive.
fn archive_object<B>(
    alloc: Global,
    number: u64,
    content_type: &str,
    body: B,
    moment: u64,
) -> Result<Object<B>, AllocError>
where
    B: Drop,
    ensures { IfOk result (λ o. o ≡ archive_object number content_type.now body moment) }
{
    Ok(Object {
        number,
        body,
        content_type: Text::from_str(alloc, content_type)?,
        durability: None,
        metadata: Sequence::new(alloc),
        mtime: moment,
    })
}

// Puts one object of an archive.
fn put_text<B: Drop>(
    alloc: Global,
    tree: &mut Tree<B>,
    job: u64,
    name: &str,
    object: Object<B>,
) -> Result<(), AllocError>
    requires job { job < 2 ^ 62 }
    requires name { IsTrue (is_archive_name name.now) }
    requires archive { MayArchive tree.old job }
    ensures rows { OnOk result (tree.new ≡ with_row tree.old (in_job_folder job name.now) (entry.Object object)) }
    ensures archive { OnOk result (MayArchive tree.new job) }
{
    tree.put_object(in_job_folder(alloc, job, name)?, object)
}

// Puts an archive into the folder of a job.
fn put_archive<B: Drop>(
    alloc: Global,
    tree: &mut Tree<B>,
    job: u64,
    archive: Archive<B>,
    position: u64,
    moment: u64,
) -> Result<(), AllocError>
    requires job { job < 2 ^ 62 }
    requires room { position < MOST_COMMANDS }
    requires archive { MayArchive tree.old job }
    ensures { OnOk result (tree.new ≡ with_archive_from 0 tree.old job position moment archive_names (archive_bodies archive)) }
{
    let number = position * NUMBERS_A_COMMAND;
    let Archive {
        err,
        fail,
        input,
        status,
        out,
    } = archive;
    let lines = "application/x-json-stream";
    let object = archive_object(alloc, number, lines, err, moment)?;
    put_text(alloc, tree, job, "err.txt", object)?;
    let object = archive_object(alloc, number + 1, "text/plain", fail, moment)?;
    put_text(alloc, tree, job, "fail.txt", object)?;
    let object = archive_object(alloc, number + 2, "text/plain", input, moment)?;
    put_text(alloc, tree, job, "in.txt", object)?;
    let object = archive_object(alloc, number + 3, "application/json", status, moment)?;
    put_text(alloc, tree, job, "job.json", object)?;
    let object = archive_object(alloc, number + 4, "text/plain", out, moment)?;
    put_text(alloc, tree, job, "out.txt", object)
}

impl<B> Jobs<B> {
    ghost use Rattle.std.specs.Prelude.{◌≡◌, ℕ, OnErr, OnOk};
    ghost use Rattle.mt_types.specs.declared.command.Command.TheVariants.{Cancel, Finish};
    ghost use Rattle.mt_model.specs.CommandStep.{change};
    ghost use Rattle.mt_model.specs.JobSteps.{done_at};
    ghost use Rattle.mt_model.specs.Rows.{Rows};
    ghost use Rattle.mt_model.specs.State.{with_job};
    ghost use Rattle.mt_jobs.specs.Shown.{state_of};

    // The job of a number is done.
    pub(crate) fn end_as(
        &mut self,
        job: u64,
        cancelled: bool,
        moment: u64,
    ) -> Result<(), AllocError>
        ensures ok { OnOk result (self.new ≡ with_job self.old job (done_at moment cancelled)) }
        ensures err { OnErr result (self.new ≡ self.old) }
    {
        match find(&self.jobs, job) {
            Some(place) => mark_done(
                &mut self.jobs[place],
                &mut self.sched,
                &mut self.running,
                &mut self.done,
                cancelled,
                moment,
            ),
            None => Ok(()),
        }
    }

    /// Finishes a job. [`Jobs::may_finish`] has to allow it for the jobs to stay lawful. On an error, which is want of memory,
    /// nothing has changed.
    pub fn finish(&mut self, job: u64, moment: u64) -> Result<(), AllocError>
        ensures ok { OnOk result ((position : ℕ) (rows : Rows B) → state_of position rows self.new ≡ change (state_of position rows self.old) (Finish job moment)) }
        ensures err { OnErr result (self.new ≡ self.old) }
    {
        self.end_as(job, false, moment)
    }

    /// Cancels a job. [`Jobs::may_cancel`] has to allow it for the jobs to stay lawful. On an error, which is want of memory, nothing
    /// has changed.
    pub fn cancel(&mut self, job: u64, moment: u64) -> Result<(), AllocError>
        ensures ok { OnOk result ((position : ℕ) (rows : Rows B) → state_of position rows self.new ≡ change (state_of position rows self.old) (Cancel job moment)) }
        ensures err { OnErr result (self.new ≡ self.old) }
    {
        self.end_as(job, true, moment)
    }
}

impl<B: Drop> Jobs<B> {
    ghost use Rattle.std.specs.Prelude.{◌≡◌, ◌<◌, None, OnErr, OnOk};
    ghost use Rattle.mt_types.specs.declared.command.Command.TheVariants.{Close};
    ghost use Rattle.mt_model.specs.CommandStep.{change};
    ghost use Rattle.mt_model.specs.JobSteps.{close_refusal, job_refusal};
    ghost use Rattle.mt_model.specs.Lawful.{LawfulJobs, LawfulRows};
    ghost use Rattle.mt_model.specs.State.{job_at};
    ghost use Rattle.mt_jobs.specs.Shown.{state_of};

    /// Closes a job with its archive, as the command after so many. [`Jobs::may_close`] has to allow it. On an error, which is want
    /// of memory, the rows may be any; the jobs are as they were.
    pub fn close(
        &mut self,
        alloc: Global,
        tree: &mut Tree<B>,
        job: u64,
        cancelled: bool,
        archive: Archive<B>,
        position: u64,
        moment: u64,
    ) -> Result<(), AllocError>
        requires room { position < MOST_COMMANDS }
        requires allowed { job_refusal (job_at self.old job) (close_refusal cancelled) ≡ None }
        requires rows { LawfulRows position tree.old }
        requires jobs { LawfulJobs position tree.old self.old }
        ensures ok { OnOk result (state_of position tree.new self.new ≡ change (state_of position tree.old self.old) (Close job cancelled archive moment)) }
        ensures err { OnErr result (self.new ≡ self.old) }
    {
        put_archive(alloc, tree, job, archive, position, moment)?;
        self.end_as(job, cancelled, moment)
    }
}

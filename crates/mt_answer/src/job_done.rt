//! The reply to what is asked of jobs and isn't refused.
ghost use Rattle.std.specs.Prelude.{◌≡◌, ◌*◌, ◌≤◌, IfOk};
ghost use Rattle.mt_jobs.specs.Shown.{state_of};
ghost use Rattle.mt_model.specs.Rows.{Rows};
ghost use Rattle.mt_model.specs.Names.{job_folder};
ghost use Rattle.mt_path.specs.AccountPath.{path_text};
ghost use Rattle.mt_reply.specs.Replies.{made_reply};
ghost use Rattle.mt_answer.specs.JobAnswer as words;
ghost use Rattle.mt_answer.specs.JobJudging.{asked_job};
ghost use Rattle.mt_answer.specs.JobLaws.{AreShowable};

use crate::job_page::jobs_page_of;
use mt_base::LAST_MOMENT;
use mt_jobs::Jobs;
use mt_jobtext::{line_count, live_text};
use mt_reply::{Stamp, done_reply, live_reply, made_reply, page_reply, taken_reply};
use mt_request::{JobDoing, Page};
use mt_resolve::job_folder;
use mt_types::{Body, JobStand, LiveText, MOST_COMMANDS, NUMBERS_A_COMMAND, Reply};
use std::alloc::{AllocError, Global};

// To a new job, which is the first that a command behind so many makes.
fn job_reply(
    alloc: Global,
    login: &str,
    stamp: Stamp,
    count: u64,
) -> Result<Reply<Body>, AllocError>
    requires moment { stamp.moment ≤ LAST_MOMENT }
    requires count { count ≤ MOST_COMMANDS }
    ensures { IfOk result (λ reply. reply ≡ made_reply stamp (path_text login.now (job_folder (count * NUMBERS_A_COMMAND)))) }
{
    let folder = job_folder(alloc, count * NUMBERS_A_COMMAND)?;
    let location = folder.print(alloc, login)?;
    made_reply(alloc, stamp, location.as_bytes())
}

// To a text of a job.
fn text_reply(
    alloc: Global,
    login: &str,
    stamp: Stamp,
    jobs: &Jobs<Body>,
    job: Option<u64>,
    text: LiveText,
) -> Result<Reply<Body>, AllocError>
    requires moment { stamp.moment ≤ LAST_MOMENT }
    requires jobs { AreShowable jobs.now }
    ensures { IfOk result (λ reply. reply ≡ words.text_reply login.now stamp (asked_job jobs.now job) text) }
{
    let Some(job) = job else {
        return done_reply(alloc, stamp);
    };
    match jobs.kept(job) {
        Some(kept) => {
            let count = line_count(kept, text)?;
            live_reply(
                alloc,
                stamp,
                text,
                count,
                live_text(alloc, login, kept, text)?,
            )
        }
        None => done_reply(alloc, stamp),
    }
}

// To the jobs that stand so.
fn stand_reply(
    alloc: Global,
    stamp: Stamp,
    jobs: &Jobs<Body>,
    stand: JobStand,
    page: &Option<Page>,
) -> Result<Reply<Body>, AllocError>
    requires moment { stamp.moment ≤ LAST_MOMENT }
    requires jobs { AreShowable jobs.now }
    ensures { IfOk result (λ reply. reply ≡ words.stand_reply stamp jobs.now stand page.now) }
{
    match page {
        Some(page) => {
            let text = jobs_page_of(alloc, jobs, stand, page)?;
            page_reply(alloc, stamp, jobs.count(stand) as u64, text)
        }
        None => done_reply(alloc, stamp),
    }
}

/// The reply to what is asked of jobs and isn't refused, in an account of so many commands: to what is looked at, or to what is to be done, of
/// which the stamp has the position behind it. The jobs are those of before. It takes memory for its fields, and for the text of a
/// job or of a page; it costs the look-up of one job and its text, or a look-up for each row of a page.
pub fn job_reply_to(
    alloc: Global,
    login: &str,
    stamp: Stamp,
    count: u64,
    jobs: &Jobs<Body>,
    doing: &JobDoing,
) -> Result<Reply<Body>, AllocError>
    requires moment { stamp.moment ≤ LAST_MOMENT }
    requires count { count ≤ MOST_COMMANDS }
    requires jobs { AreShowable jobs.now }
    ensures { IfOk result (λ reply. (rows : Rows Body) → reply ≡ words.job_reply_to login.now stamp (state_of count rows jobs.now) doing.now) }
{
    match doing {
        JobDoing::MakeJob => job_reply(alloc, login, stamp, count),
        JobDoing::PostLines { .. } => done_reply(alloc, stamp),
        JobDoing::EndInput { .. } | JobDoing::CancelJob { .. } => taken_reply(alloc, stamp),
        JobDoing::LookLive { job, text } => text_reply(alloc, login, stamp, jobs, *job, *text),
        JobDoing::ListJobs { stand, page } => stand_reply(alloc, stamp, jobs, *stand, page),
    }
}

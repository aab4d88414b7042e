//! The text of a page of jobs that stand so.
ghost use Rattle.std.specs.Prelude.{◌≡◌, ◌<◌, ◌≤◌, ◌^◌, All, IfOk, map};
ghost use Rattle.mt_jobs.specs.Pages.{page_of};
ghost use Rattle.mt_live.specs.LiveTexts.{jobs_text};
ghost use Rattle.mt_answer.specs.JobAnswer.{jobs_page};
ghost use Rattle.mt_answer.specs.JobLaws.{AreShowable};

use mt_base::{Bytes, LAST_MOMENT};
use mt_ident::least_number;
use mt_jobs::Jobs;
use mt_live::job_line;
use mt_request::Page;
use mt_types::{Body, Job, JobStand};
use std::alloc::{AllocError, Global};

/// The text of a page of the jobs that stand so: a line a job, from the first whose name isn't below the marker. It costs a look-up a line,
/// and no walk over the other jobs.
pub(crate) fn jobs_page_of(
    alloc: Global,
    jobs: &Jobs<Body>,
    stand: JobStand,
    page: &Page,
) -> Result<Bytes, AllocError>
    requires { AreShowable jobs.now }
    ensures { IfOk result (λ text. text ≡ jobs_text (jobs_page stand page.now jobs.now)) }
{
    match least_number(2, page.marker.as_slice()) {
        Some(from) => page_from(alloc, jobs, stand, from, page.limit as usize),
        None => Ok(Bytes::from_vec(Vec::new(alloc))),
    }
}

// The text of a page of the jobs that stand so, from the first whose number isn't below.
fn page_from(
    alloc: Global,
    jobs: &Jobs<Body>,
    stand: JobStand,
    from: u64,
    limit: usize,
) -> Result<Bytes, AllocError>
    requires { AreShowable jobs.now }
    ensures { IfOk result (λ text. text ≡ jobs_text (page_of stand from limit jobs.now)) }
{
    let found = jobs.page(alloc, stand, from, limit)?;
    text_of(alloc, found.as_slice())
}

// The lines of jobs.
fn text_of(alloc: Global, jobs: &[&Job<Body>]) -> Result<Bytes, AllocError>
    requires numbers { All (λ j. j.now.number < 2 ^ 62) jobs.now }
    requires moments { All (λ j. j.now.created ≤ LAST_MOMENT) jobs.now }
    ensures { IfOk result (λ text. text ≡ jobs_text (map (λ j. j.now) jobs.now)) }
{
    let mut out = Vec::new(alloc);
    for job in jobs {
        let line = job_line(alloc, job.number, job.created)?;
        out.extend_from_slice(line.as_bytes())?;
    }
    Ok(Bytes::from_vec(out))
}

//! Why what is asked of jobs is refused.
ghost use Rattle.std.specs.Prelude.{◌≡◌, ℕ, List, None, true};
ghost use Rattle.std.specs.Option.{option_copied};
ghost use Rattle.mt_jobs.specs.Shown.{state_of};
ghost use Rattle.mt_model.specs.JobSteps.{add_inputs_refusal, close_refusal, input_refusal, job_refusal};
ghost use Rattle.mt_model.specs.Rows.{Rows};
ghost use Rattle.mt_tree.specs.Answer.{answer};
ghost use Rattle.mt_answer.specs.JobJudging.{document_refusal, job_account_refusal, asked_job, job_refusal_of, lines_refusal, posted_refusal, told_by, too_many_refusal};
ghost use Rattle.mt_answer.specs.Judging.{len_of};
ghost use Rattle.mt_types.specs.declared.job.Job.{Job};

use crate::judge::{code_of, limit_refusal};
use crate::posted::Posted;
use mt_error::{ErrorCode, Refused};
use mt_jobs::{Jobs, may_make_job};
use mt_request::{JobDoing, JobRequest};
use mt_tree::Tree;
use mt_types::{Body, InputLine, Refusal};

// The error that tells of what a test answers.
fn told(decision: Result<(), Refusal>) -> Option<Refused>
    ensures { result ≡ told_by decision }
{
    match decision {
        Ok(()) => None,
        Err(refusal) => Some(Refused::plain(code_of(refusal))),
    }
}

// Why a body is refused.
fn posted_refusal(posted: &Posted) -> Option<Refused>
    ensures { result ≡ posted_refusal posted.now }
{
    match posted {
        Posted::NoDocument => Some(Refused::plain(ErrorCode::InvalidJob)),
        Posted::NoText => Some(Refused::plain(ErrorCode::BadRequest)),
        Posted::Nothing | Posted::Document(_) | Posted::Lines(_) | Posted::TooMany => None,
    }
}

// Why no job is made of a document.
#[tactic(auto, using(crate::proofs::JobTests::told_answer))]
fn document_refusal(tree: &Tree<Body>, posted: &Posted) -> Option<Refused>
    ensures { (count : ℕ) (jobs : List (Job Body)) → result ≡ document_refusal len_of (state_of count tree.now jobs) posted.now }
{
    match posted {
        Posted::Document(document) => told(may_make_job(tree, document)),
        Posted::Nothing
        | Posted::NoDocument
        | Posted::Lines(_)
        | Posted::TooMany
        | Posted::NoText => None,
    }
}

// Whether a job takes these lines.
fn add_test(jobs: &Jobs<Body>, job: Option<u64>, lines: &[InputLine]) -> Result<(), Refusal>
    ensures { result ≡ answer (job_refusal (asked_job jobs.now job) (add_inputs_refusal lines.now)) }
{
    match job {
        Some(job) => jobs.may_add_inputs(job, lines),
        None => Err(Refusal::JobNotFound),
    }
}

// Whether the input of a job may end.
fn end_test(jobs: &Jobs<Body>, job: Option<u64>) -> Result<(), Refusal>
    ensures { result ≡ answer (job_refusal (asked_job jobs.now job) input_refusal) }
{
    match job {
        Some(job) => jobs.may_end_input(job),
        None => Err(Refusal::JobNotFound),
    }
}

// Whether a job takes lines that are too many at once, which none does.
#[tactic(auto, using(crate::proofs::JobTests::many_go, crate::proofs::JobTests::many_stay))]
fn many_test(jobs: &Jobs<Body>, job: Option<u64>) -> Result<(), Refusal>
    ensures { result ≡ answer (job_refusal (asked_job jobs.now job) too_many_refusal) }
{
    match end_test(jobs, job) {
        Ok(()) => Err(Refusal::TooManyInputs),
        Err(refusal) => Err(refusal),
    }
}

// Whether a job may be cancelled.
fn cancel_test(jobs: &Jobs<Body>, job: Option<u64>) -> Result<(), Refusal>
    ensures { result ≡ answer (job_refusal (asked_job jobs.now job) (close_refusal true)) }
{
    match job {
        Some(job) => jobs.may_close(job, true),
        None => Err(Refusal::JobNotFound),
    }
}

// Whether a job is there.
#[tactic(auto, using(crate::proofs::JobTests::there, crate::proofs::JobTests::not_there))]
fn look_test(jobs: &Jobs<Body>, job: Option<u64>) -> Result<(), Refusal>
    ensures { result ≡ answer (job_refusal (asked_job jobs.now job) (λ j. None)) }
{
    match job {
        Some(job) => match jobs.get(job) {
            Some(_) => Ok(()),
            None => Err(Refusal::JobNotFound),
        },
        None => Err(Refusal::JobNotFound),
    }
}

// Why posted lines are not taken.
#[tactic(auto, using(crate::proofs::JobTests::told_answer))]
fn lines_refusal(jobs: &Jobs<Body>, job: Option<u64>, posted: &Posted) -> Option<Refused>
    ensures { (count : ℕ) (rows : Rows Body) → result ≡ lines_refusal (state_of count rows jobs.now) job posted.now }
{
    match posted {
        Posted::Lines(lines) => told(add_test(jobs, job, lines.as_slice())),
        Posted::TooMany => told(many_test(jobs, job)),
        Posted::Nothing | Posted::Document(_) | Posted::NoDocument | Posted::NoText => {
            told(end_test(jobs, job))
        }
    }
}

// Why the account doesn't do it.
#[tactic(auto, using(crate::proofs::JobTests::told_answer))]
fn job_account_refusal(
    tree: &Tree<Body>,
    jobs: &Jobs<Body>,
    doing: &JobDoing,
    posted: &Posted,
) -> Option<Refused>
    ensures { (count : ℕ) → result ≡ job_account_refusal len_of (state_of count tree.now jobs.now) doing.now posted.now }
{
    match doing {
        JobDoing::MakeJob => document_refusal(tree, posted),
        JobDoing::PostLines { job } => lines_refusal(jobs, *job, posted),
        JobDoing::EndInput { job } => told(end_test(jobs, *job)),
        JobDoing::CancelJob { job } => told(cancel_test(jobs, *job)),
        JobDoing::LookLive { job, .. } => told(look_test(jobs, *job)),
        JobDoing::ListJobs { page, .. } => limit_refusal(false, page),
    }
}

/// The first refusal of what is asked of jobs, whose body asks for this and has this digest, in the one order of all; without a digest, the
/// first that stands whatever it is. A log without room refuses behind all of these, and is not looked at here. It costs a
/// look-up of a job, or one or two of each asset of a document, and takes no memory.
#[tactic(auto, unfolding(crate::specs::JobJudging::job_refusal_of))]
pub fn job_refusal_of(
    request: &JobRequest,
    tree: &Tree<Body>,
    jobs: &Jobs<Body>,
    posted: &Posted,
    digest: Option<&[u8; 16]>,
) -> Option<Refused>
    ensures { (count : ℕ) → result ≡ job_refusal_of len_of request.now (state_of count tree.now jobs.now) posted.now (option_copied digest.entry) }
{
    if let Some(refused) = request.refusal(digest) {
        return Some(refused);
    }
    if let Some(refused) = posted_refusal(posted) {
        return Some(refused);
    }
    job_account_refusal(tree, jobs, &request.doing, posted)
}

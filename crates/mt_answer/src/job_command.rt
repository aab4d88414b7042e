//! The command that does what is asked of jobs.
ghost use Rattle.std.specs.Prelude.{◌≡◌, ◌≤◌, IfSome, IsTrue, false};
ghost use Rattle.mt_codec.specs.Spelling.{FitsArchive, IsWithinLimits};
ghost use Rattle.mt_types.specs.Kinds.{kind_of};
ghost use Rattle.mt_types.specs.Limits.{is_number};
ghost use Rattle.mt_answer.specs.JobAnswer.{add_lines, close_job, job_command_of, make_job};
ghost use Rattle.mt_answer.specs.JobLaws.{FitsPosted, IsKindOfJobs, NamesNumber};

use crate::posted::Posted;
use mt_base::LAST_MOMENT;
use mt_request::JobDoing;
use mt_types::{Archive, Body, Command};

fn make_job(posted: Posted, moment: u64) -> Option<Command<Body>>
    requires posted { FitsPosted posted }
    requires moment { moment ≤ LAST_MOMENT }
    ensures command { result ≡ make_job posted moment }
    ensures kind { IfSome result (λ c. IsKindOfJobs (kind_of c)) }
    ensures limits { IfSome result IsWithinLimits }
{
    match posted {
        Posted::Document(document) => Some(Command::NewJob { document, moment }),
        Posted::Nothing
        | Posted::NoDocument
        | Posted::Lines(_)
        | Posted::TooMany
        | Posted::NoText => None,
    }
}

fn add_lines(job: u64, posted: Posted, moment: u64) -> Option<Command<Body>>
    requires posted { FitsPosted posted }
    requires job { IsTrue (is_number job) }
    requires moment { moment ≤ LAST_MOMENT }
    ensures command { result ≡ add_lines job posted moment }
    ensures kind { IfSome result (λ c. IsKindOfJobs (kind_of c)) }
    ensures limits { IfSome result IsWithinLimits }
{
    match posted {
        Posted::Lines(lines) => Some(Command::AddInputs { job, lines, moment }),
        Posted::Nothing
        | Posted::Document(_)
        | Posted::NoDocument
        | Posted::TooMany
        | Posted::NoText => None,
    }
}

fn close_job(job: u64, archive: Option<Archive<Body>>, moment: u64) -> Option<Command<Body>>
    requires archive { IfSome archive (FitsArchive false) }
    requires job { IsTrue (is_number job) }
    requires moment { moment ≤ LAST_MOMENT }
    ensures command { result ≡ close_job job archive moment }
    ensures kind { IfSome result (λ c. IsKindOfJobs (kind_of c)) }
    ensures limits { IfSome result IsWithinLimits }
{
    match archive {
        Some(archive) => Some(Command::Close {
            job,
            cancelled: true,
            archive,
            moment,
        }),
        None => None,
    }
}

/// The command that does what is asked of jobs, at a moment in seconds since 1970: none where something is looked at. The archive is that of
/// a job that is cancelled. The body's document and lines are moved into the command, and no memory is taken.
pub fn job_command_of(
    doing: &JobDoing,
    posted: Posted,
    archive: Option<Archive<Body>>,
    moment: u64,
) -> Option<Command<Body>>
    requires posted { FitsPosted posted }
    requires job { NamesNumber doing.now }
    requires archive { IfSome archive (FitsArchive false) }
    requires moment { moment ≤ LAST_MOMENT }
    ensures command { result ≡ job_command_of doing.now posted archive moment }
    ensures kind { IfSome result (λ c. IsKindOfJobs (kind_of c)) }
    ensures limits { IfSome result IsWithinLimits }
{
    match doing {
        JobDoing::MakeJob => make_job(posted, moment),
        JobDoing::PostLines { job: Some(job) } => add_lines(*job, posted, moment),
        JobDoing::EndInput { job: Some(job) } => Some(Command::EndInput { job: *job, moment }),
        JobDoing::CancelJob { job: Some(job) } => close_job(*job, archive, moment),
        JobDoing::PostLines { job: None }
        | JobDoing::EndInput { job: None }
        | JobDoing::CancelJob { job: None }
        | JobDoing::LookLive { .. }
        | JobDoing::ListJobs { .. } => None,
    }
}

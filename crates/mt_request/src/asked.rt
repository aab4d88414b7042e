//! What a head asks for, of objects and directories or of jobs.
ghost use Rattle.std.specs.Prelude.{◌≡◌, ℕ, IfOk, List, Ok, Some};
ghost use Rattle.mt_path.specs.AccountPath.{AccountPath};
ghost use Rattle.mt_request.specs.Requests.{asked_by, asked_late, asked_of, is_post, late_at, listed, look_at, range_of_head, refused_early, rows_of, wanted_at};
ghost use Rattle.mt_request.specs.Puts.{unless};
ghost use Rattle.mt_request.specs.Requests as words;
ghost use Rattle.mt_request.specs.declared.route.Route.TheVariants as Route;

use crate::digest::{Wish, digest_refusal, wish_of};
use crate::jobs::JobDoing;
use crate::put::{losing_refusal, put_of};
use crate::query::{page_of, query_of, stand_in};
use crate::request::{Doing, Request};
use crate::route::{Route, route_of};
use crate::target::{early_at, read_path};
use mt_cond::Range;
use mt_error::{ErrorCode, Refused};
use mt_http::Head;
use mt_path::Path;
use mt_types::{JobStand, LiveText};
use std::alloc::{AllocError, Global};

/// What is asked of jobs, and the digest that the body is to have. Its head is refused by nothing but that digest.
#[derive(Debug, PartialEq, Eq, Drop)]
pub struct JobRequest {
    /// The digest that the body is to have.
    pub wish: Wish,
    /// What is to be done.
    pub doing: JobDoing,
}

/// What a head asks for.
#[derive(Debug, PartialEq, Eq, Drop)]
pub enum Asked {
    /// Something of objects and directories, those in the folders of jobs too; or nothing, since the head is refused.
    Rows(Request),
    /// Something of jobs.
    Jobs(JobRequest),
}

/// What is to be done.
#[derive(Debug, PartialEq, Eq, Drop)]
pub enum Wanted {
    /// With objects and directories.
    Rows(Doing),
    /// With jobs.
    Jobs(JobDoing),
}

impl JobRequest {
    ghost use Rattle.std.specs.Prelude.{◌≡◌};
    ghost use Rattle.std.specs.Option.{option_copied, option_map};
    ghost use Rattle.mt_error.specs.Refusals.{plain};
    ghost use Rattle.mt_request.specs.Digest.{digest_refusal};

    /// The refusal of a body with this digest; without one, whether its field can't be read.
    pub fn refusal(&self, digest: Option<&[u8; 16]>) -> Option<Refused>
        ensures { result ≡ option_map plain (digest_refusal self.now.wish (option_copied digest.entry)) }
    {
        match digest_refusal(&self.wish, digest) {
            Some(code) => Some(Refused::plain(code)),
            None => None,
        }
    }
}

impl Asked {
    ghost use Rattle.std.specs.Prelude.{◌≡◌};
    ghost use Rattle.std.specs.Option.{option_copied};
    ghost use Rattle.mt_request.specs.Requests.{asked_refusal};

    /// The first refusal of the head, whose body has this digest; without one, the first that stands whatever the body is.
    pub fn refusal(&self, digest: Option<&[u8; 16]>) -> Option<Refused>
        ensures { result ≡ asked_refusal self.now (option_copied digest.entry) }
    {
        match self {
            Asked::Rows(request) => request.refusal(digest),
            Asked::Jobs(request) => request.refusal(digest),
        }
    }
}

// The bytes that a GET asks for.
fn range_of_head(head: &Head) -> Option<Range>
    ensures { result ≡ range_of_head head.now }
{
    if head.method.as_str() == "GET" {
        Range::read(&head.fields)
    } else {
        None
    }
}

// What stands at a path is looked at.
fn look_at(alloc: Global, path: Path, head: &Head) -> Result<Doing, AllocError>
    ensures { IfOk result (λ doing. doing ≡ look_at path head.now) }
{
    Ok(Doing::Look {
        path,
        page: page_of(alloc, query_of(head.target.as_slice()))?,
        range: range_of_head(head),
    })
}

// What is to be done with objects and directories is something to be done.
#[tactic(auto, using(crate::proofs::Ordered::rows_unless))]
fn rows_of(asks: Result<Doing, ErrorCode>) -> Result<Wanted, ErrorCode>
    ensures { result ≡ rows_of asks }
{
    match asks {
        Ok(doing) => Ok(Wanted::Rows(doing)),
        Err(code) => Err(code),
    }
}

// What is asked at a path of objects and directories.
#[tactic(auto, using(crate::proofs::Ordered::rows_unless))]
fn ask_rows(
    alloc: Global,
    login: &str,
    path: Path,
    head: &Head,
) -> Result<Result<Wanted, ErrorCode>, AllocError>
    ensures { IfOk result (λ asks. asks ≡ unless (late_at Route.Rows login.now head.now) (wanted_at Route.Rows path login.now head.now)) }
{
    if head.method.as_str() == "PUT" {
        if let Some(code) = losing_refusal(alloc, head)? {
            return Ok(Err(code));
        }
        let asks = put_of(alloc, login, path, head.fields.as_slice())?;
        return Ok(rows_of(asks));
    }
    if head.method.as_str() == "DELETE" {
        return Ok(Ok(Wanted::Rows(Doing::Remove { path })));
    }
    Ok(Ok(Wanted::Rows(look_at(alloc, path, head)?)))
}

fn is_post(head: &Head) -> bool
    ensures { result ≡ is_post head.now }
{
    head.method.as_str() == "POST"
}

// What is asked of the folder of jobs that is looked at.
fn listed(
    alloc: Global,
    stand: Option<JobStand>,
    path: Path,
    head: &Head,
) -> Result<Wanted, AllocError>
    ensures { IfOk result (λ asks. asks ≡ listed (Some stand) path head.now) }
{
    match stand {
        Some(stand) => Ok(Wanted::Jobs(JobDoing::ListJobs {
            stand,
            page: page_of(alloc, query_of(head.target.as_slice()))?,
        })),
        None => Ok(Wanted::Rows(look_at(alloc, path, head)?)),
    }
}

// What is asked at the folder of jobs.
fn ask_jobs(alloc: Global, path: Path, head: &Head) -> Result<Result<Wanted, ErrorCode>, AllocError>
    ensures { (login : List ℕ) → IfOk result (λ asks. asks ≡ unless (late_at Route.Jobs login head.now) (wanted_at Route.Jobs path login head.now)) }
{
    if is_post(head) {
        return Ok(Ok(Wanted::Jobs(JobDoing::MakeJob)));
    }
    match stand_in(alloc, query_of(head.target.as_slice()))? {
        Some(stand) => Ok(Ok(listed(alloc, stand, path, head)?)),
        None => Ok(Err(ErrorCode::BadRequest)),
    }
}

// What is asked at the input of a job.
fn ask_input(job: Option<u64>, head: &Head) -> Wanted
    ensures { (login : List ℕ) (path : AccountPath) → result ≡ wanted_at (Route.Input job) path login head.now }
{
    if is_post(head) {
        Wanted::Jobs(JobDoing::PostLines { job })
    } else {
        Wanted::Jobs(JobDoing::LookLive {
            job,
            text: LiveText::In,
        })
    }
}

// What is asked at a path, by what it is for, or its first refusal behind the digest.
fn ask_at(
    alloc: Global,
    login: &str,
    route: Route,
    path: Path,
    head: &Head,
) -> Result<Result<Wanted, ErrorCode>, AllocError>
    ensures { IfOk result (λ asks. asks ≡ unless (late_at route login.now head.now) (wanted_at route path login.now head.now)) }
{
    match route {
        Route::Rows => ask_rows(alloc, login, path, head),
        Route::Jobs => ask_jobs(alloc, path, head),
        Route::JobRow => Ok(Ok(Wanted::Rows(look_at(alloc, path, head)?))),
        Route::Live { job, text } => Ok(Ok(Wanted::Jobs(JobDoing::LookLive { job, text }))),
        Route::Input { job } => Ok(Ok(ask_input(job, head))),
        Route::InputEnd { job } => Ok(Ok(Wanted::Jobs(JobDoing::EndInput { job }))),
        Route::Cancel { job } => Ok(Ok(Wanted::Jobs(JobDoing::CancelJob { job }))),
        Route::Nowhere => Ok(Ok(Wanted::Rows(Doing::Nothing))),
    }
}

fn refused_early(wish: Wish, refused: Refused) -> Request
    ensures { result ≡ refused_early wish refused }
{
    Request {
        early: Some(refused),
        wish,
        late: None,
        doing: Doing::Nothing,
    }
}

// What is asked for that is refused behind the digest, or not at all.
fn asked_late(wish: Wish, asks: Result<Wanted, ErrorCode>) -> Asked
    ensures { result ≡ asked_late wish asks }
{
    match asks {
        Ok(Wanted::Rows(doing)) => Asked::Rows(Request {
            early: None,
            wish,
            late: None,
            doing,
        }),
        Ok(Wanted::Jobs(doing)) => Asked::Jobs(JobRequest { wish, doing }),
        Err(code) => Asked::Rows(Request {
            early: None,
            wish,
            late: Some(code),
            doing: Doing::Nothing,
        }),
    }
}

// What is asked for at a path.
fn asked_at(alloc: Global, login: &str, path: Path, head: &Head) -> Result<Asked, AllocError>
    ensures { IfOk result (λ asked. asked ≡ words.asked_at (Ok path) login.now head.now) }
{
    let wish = wish_of(head.fields.as_slice());
    let route = route_of(&path);
    match early_at(route, head) {
        Some(refused) => Ok(Asked::Rows(refused_early(wish, refused))),
        None => Ok(asked_late(wish, ask_at(alloc, login, route, path, head)?)),
    }
}

/// What a head asks for. It is read whole but for what stands behind its first refusal.
#[tactic(auto, unfolding(crate::specs::Requests::asked_of))]
pub fn asked_of(alloc: Global, login: &str, head: &Head) -> Result<Asked, AllocError>
    ensures { IfOk result (λ asked. asked ≡ asked_of login.now head.now) }
{
    match read_path(alloc, login, head.target.as_slice())? {
        Ok(path) => asked_at(alloc, login, path, head),
        Err(code) => {
            let wish = wish_of(head.fields.as_slice());
            Ok(Asked::Rows(refused_early(wish, Refused::plain(code))))
        }
    }
}

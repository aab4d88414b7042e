//! A reply to a request that isn't one for a page.
ghost use Rattle.std.specs.Prelude.{◌≡◌, ◌∷◌, [], ◌++◌, IfOk, option_and_then};
ghost use Rattle.std.specs.Option.{option_copied};
ghost use Rattle.mt_script.specs.declared.end.ClientEnd.TheVariants.{Done};
ghost use Rattle.mt_script.specs.Ends.{with_text};
ghost use Rattle.mt_script.specs.Script.{as_job, before_job, behind_jobs, created, created_by, is_success, job_in, once_of, success, success_of};

use crate::end::{ClientEnd, Closing};
use crate::refusal::{refused, silent};
use mt_ask::{Ask, Words};
use mt_base::{Bytes, Text};
use mt_ident::uuid_number;
use mt_response::ReplyHead;
use mt_types::first_value;
use std::alloc::{AllocError, Global};

/// The kind of the identifiers of jobs.
const JOB: u8 = 2;

// The status of what an ask wants.
fn success_of(ask: &Ask) -> u16
    ensures { result ≡ success_of ask.now }
{
    match ask {
        Ask::List(_) | Ask::Find(_) | Ask::Get(_) | Ask::JobStatus(_) | Ask::JobOutputs(_) => 200,
        Ask::CreateJob => 201,
        Ask::EndInput(_) | Ask::CancelJob(_) => 202,
        Ask::Put(_)
        | Ask::MakeDirectory(_)
        | Ask::Remove(_)
        | Ask::Link { .. }
        | Ask::AddInputs(_) => 204,
    }
}

/// Whether a reply has the status of what an ask wants.
pub fn is_success(ask: &Ask, head: &ReplyHead) -> bool
    ensures { result ≡ is_success ask.now head.now }
{
    head.status == success_of(ask)
}

// A copy of bytes with a line feed behind, and the end.
fn line_done(alloc: Global, bytes: &[u8]) -> Result<Closing, AllocError>
    ensures { IfOk result (λ e. e ≡ with_text (bytes.now ++ 10 ∷ []) Done) }
{
    let mut text = Vec::from_slice(alloc, bytes)?;
    text.push(b'\n')?;
    Ok(Closing {
        text: Bytes::from_vec(text),
        end: ClientEnd::Done,
    })
}

// A copy of bytes, and the end.
fn bytes_done(alloc: Global, bytes: &[u8]) -> Result<Closing, AllocError>
    ensures { IfOk result (λ e. e ≡ with_text bytes.now Done) }
{
    Ok(Closing {
        text: Bytes::from_slice(alloc, bytes)?,
        end: ClientEnd::Done,
    })
}

// What stands before a job's identifier in its location.
fn before_job(alloc: Global, login: &str) -> Result<Text, AllocError>
    ensures { IfOk result (λ t. t ≡ before_job login.now) }
{
    let mut text = String::from_str(alloc, "/")?;
    text.push_str(login)?;
    text.push_str("/jobs/")?;
    Ok(Text::from_string(text))
}

// The bytes, where they are a job's identifier.
fn as_job(id: &[u8]) -> Option<&[u8]>
    ensures { option_copied result ≡ as_job id.now }
{
    match uuid_number(JOB, id) {
        Some(_) => Some(id),
        None => None,
    }
}

// The job's identifier behind what stands before it in its location.
fn job_behind<'a>(front: &[u8], value: &'a [u8]) -> Option<&'a [u8]>
    ensures { option_copied result ≡ option_and_then as_job (behind_jobs front.now value.now) }
{
    match value.strip_prefix(front) {
        Some(id) => as_job(id),
        None => None,
    }
}

// How a run ends at a location of a job that was made, or at none.
fn created_at(alloc: Global, login: &str, value: &[u8]) -> Result<Closing, AllocError>
    ensures { IfOk result (λ e. e ≡ created_by (job_in login.now value.now)) }
{
    let front = before_job(alloc, login)?;
    match job_behind(front.as_bytes(), value) {
        Some(id) => line_done(alloc, id),
        None => Ok(silent(alloc, ClientEnd::BadReply)),
    }
}

// How a run ends that made a job.
fn created(alloc: Global, login: &str, head: &ReplyHead) -> Result<Closing, AllocError>
    ensures { IfOk result (λ e. e ≡ created login.now head.now) }
{
    match first_value(head.fields.as_slice(), "location") {
        Some(value) => created_at(alloc, login, value),
        None => Ok(silent(alloc, ClientEnd::BadReply)),
    }
}

// How a run ends at a reply of the wanted status.
fn success(
    alloc: Global,
    login: &str,
    ask: &Ask,
    head: &ReplyHead,
    body: &[u8],
) -> Result<Closing, AllocError>
    ensures { IfOk result (λ e. e ≡ success login.now ask.now head.now body.now) }
{
    match ask {
        Ask::Get(_) | Ask::JobOutputs(_) => bytes_done(alloc, body),
        Ask::JobStatus(_) => line_done(alloc, body),
        Ask::CreateJob => created(alloc, login, head),
        Ask::List(_)
        | Ask::Find(_)
        | Ask::Put(_)
        | Ask::MakeDirectory(_)
        | Ask::Remove(_)
        | Ask::Link { .. }
        | Ask::AddInputs(_)
        | Ask::EndInput(_)
        | Ask::CancelJob(_) => Ok(silent(alloc, ClientEnd::Done)),
    }
}

/// What the reply to a request that isn't one for a page ends a run with: at the wanted status with what the words show, `Done`;
/// but a made job whose `location` names none ends with `BadReply`. At another status with the line `CODE: MESSAGE` of the body
/// and `Refused`, or with `BadReply` where the body isn't a JSON object with texts `code` and `message`. The answer is an error for
/// want of memory alone.
pub fn judge_once(
    alloc: Global,
    words: &Words,
    head: &ReplyHead,
    body: &[u8],
) -> Result<Closing, AllocError>
    ensures { IfOk result (λ e. e ≡ once_of words.now head.now body.now) }
{
    if is_success(&words.ask, head) {
        success(alloc, words.login.as_str(), &words.ask, head, body)
    } else {
        refused(alloc, body)
    }
}

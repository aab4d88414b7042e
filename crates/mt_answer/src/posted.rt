//! What the body of a request asks of jobs: a document, or lines.
ghost use Rattle.std.specs.Prelude.{◌≡◌, IfOk, length, map};
ghost use Rattle.mt_jobdoc.specs.Document.{document_of};
ghost use Rattle.mt_answer.specs.Posting.{document_posted, input_line, lines_posted, posted_lines, posted_of, text_posted};

use mt_base::{Sequence, Text};
use mt_jobdoc::{InvalidJob, read};
use mt_path::{Path, PathError};
use mt_request::JobDoing;
use mt_types::{InputLine, JobDocument, Lines};
use std::alloc::{AllocError, Global};

/// A job has at most so many inputs and missing lines together.
const MOST_LINES: usize = 1_000_000;

/// What a body asks for.
#[derive(Debug, Drop)]
pub enum Posted {
    /// It isn't looked at.
    Nothing,
    /// A job of this document.
    Document(JobDocument),
    /// A job, but it is no document.
    NoDocument,
    /// These lines are to be inputs, at most 1,000,000.
    Lines(Lines),
    /// More lines than a job takes. They are not made.
    TooMany,
    /// Lines, but it is no UTF-8.
    NoText,
}

// What a posted document asks for.
fn document_posted(alloc: Global, login: &str, body: &[u8]) -> Result<Posted, AllocError>
    ensures { IfOk result (λ p. p ≡ document_posted (document_of login.now body.now)) }
{
    match read(alloc, login, body) {
        Ok(document) => Ok(Posted::Document(document)),
        Err(InvalidJob::Memory) => Err(AllocError),
        Err(_) => Ok(Posted::NoDocument),
    }
}

// A text as a line.
fn input_line(alloc: Global, login: &str, text: &str) -> Result<InputLine, AllocError>
    ensures { IfOk result (λ line. line ≡ input_line login.now text.now) }
{
    match Path::plain(alloc, login, text.as_bytes()) {
        Ok(path) => Ok(InputLine::Named(path)),
        Err(PathError::Memory) => Err(AllocError),
        Err(_) => Ok(InputLine::Other(Text::from_str(alloc, text)?)),
    }
}

// How many lines of a text are not empty. Takes no memory.
fn line_count(text: &str) -> usize
    ensures { result ≡ length (posted_lines text.now) }
{
    text.lines().filter(|line| !line.is_empty()).count()
}

// The lines of a text that are not empty.
fn texts_of<'a>(alloc: Global, text: &'a str) -> Result<Vec<&'a str>, AllocError>
    ensures { IfOk result (λ v. map (λ x. x.now) v.items ≡ posted_lines text.now) }
{
    text.lines().filter(|line| !line.is_empty()).collect(alloc)
}

// The lines of texts.
fn lines_of(alloc: Global, login: &str, texts: &[&str]) -> Result<Vec<InputLine>, AllocError>
    ensures { IfOk result (λ v. v.items ≡ map (input_line login.now) (map (λ x. x.now) texts.now)) }
{
    let mut out = Vec::new(alloc);
    for text in texts {
        out.push(input_line(alloc, login, text)?)?;
    }
    Ok(out)
}

// What posted lines ask for.
fn lines_posted(alloc: Global, login: &str, text: &str) -> Result<Posted, AllocError>
    ensures { IfOk result (λ p. p ≡ lines_posted login.now (posted_lines text.now)) }
{
    if line_count(text) > MOST_LINES {
        return Ok(Posted::TooMany);
    }
    let texts = texts_of(alloc, text)?;
    let lines = lines_of(alloc, login, texts.as_slice())?;
    Ok(Posted::Lines(Sequence::from_vec(lines)))
}

// What a body of lines asks for.
fn text_posted(alloc: Global, login: &str, body: &[u8]) -> Result<Posted, AllocError>
    ensures { IfOk result (λ p. p ≡ text_posted login.now body.now) }
{
    match str::from_utf8(body) {
        Ok(text) => lines_posted(alloc, login, text),
        Err(_) => Ok(Posted::NoText),
    }
}

/// What a body asks of jobs: a document as JSON, or lines in UTF-8, split at each LF, a CR before it dropped and empty ones passed over. A
/// line that names no path of this account is one of any text. More than 1,000,000 lines are counted, and not made. Memory is taken
/// for what is given out, and for the value of a document while it is read.
#[tactic(auto, unfolding(crate::specs::Posting::posted_of))]
pub fn posted_of(
    alloc: Global,
    login: &str,
    doing: &JobDoing,
    body: &[u8],
) -> Result<Posted, AllocError>
    ensures { IfOk result (λ p. p ≡ posted_of login.now doing.now body.now) }
{
    match doing {
        JobDoing::MakeJob => document_posted(alloc, login, body),
        JobDoing::PostLines { .. } => text_posted(alloc, login, body),
        JobDoing::ListJobs { .. }
        | JobDoing::EndInput { .. }
        | JobDoing::CancelJob { .. }
        | JobDoing::LookLive { .. } => Ok(Posted::Nothing),
    }
}

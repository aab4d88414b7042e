//! Rows of `mt_jobtext`: a job that is made step by step, and its texts. The login is `l`.
ghost use Rattle.std.specs.Prelude.{◌<◌, ◌≤◌, IfSome, IsTrue, length};
ghost use Rattle.mt_feeds.specs.FedJob.{AreFeeds};
ghost use Rattle.mt_jobtext.specs.Pieces.{IsShowable};

use mt_base::{Bytes, LAST_MOMENT, NUMBERS_END, Sequence, Text};
use mt_edge::{ReadStep, Source};
use mt_feeds::FedJob;
use mt_jobdoc::read;
use mt_jobtext::{Lines, LiveText, closed_len, closed_text, line_count, live_text, text_len};
use mt_path::Path;
use mt_rows::{Row, Stop, put_escaped};
use mt_types::{Body, InputLine, Item, Job, JobDocument, Outcome, TaskFailure, TraceEntry};
use std::alloc::Global;

/// Whose names they are.
const LOGIN: &str = "l";

/// The job of the rows before.
#[derive(Drop)]
pub struct Texts {
    job: Option<Job<Body>>,
}

fn narrow(number: u64) -> Result<u32, Stop> {
    if number < 1 << 32 {
        Ok(number as u32)
    } else {
        Err(Stop::NoSuchRow)
    }
}

fn path(alloc: Global, row: &Row, place: usize) -> Result<Path, Stop> {
    match Path::plain(alloc, LOGIN, row.bytes(place)?) {
        Ok(path) => Ok(path),
        Err(_) => Err(Stop::NoSuchRow),
    }
}

fn item(alloc: Global, row: &Row, place: usize) -> Result<Item<Body>, Stop> {
    Ok(Item {
        name: path(alloc, row, place)?,
        root: Text::from_str(alloc, "x")?,
        body: Body {
            first: 0,
            len: 0,
            md5: [0; 16],
        },
        reducer: None,
    })
}

// The items that the words from a place on name.
fn items(alloc: Global, row: &Row, from: usize) -> Result<Sequence<Item<Body>>, Stop> {
    let mut items = Sequence::new(alloc);
    for place in from..row.len() {
        items.push(item(alloc, row, place)?)?;
    }
    Ok(items)
}

// A posted line: a path where the word names one.
fn line(alloc: Global, row: &Row, place: usize) -> Result<InputLine, Stop> {
    match Path::plain(alloc, LOGIN, row.bytes(place)?) {
        Ok(path) => Ok(InputLine::Named(path)),
        Err(_) => Ok(InputLine::Other(Text::from_str(alloc, row.text(place)?)?)),
    }
}

fn failure(row: &Row, place: usize) -> Result<TaskFailure, Stop> {
    match row.number(place)? {
        1 => Ok(TaskFailure::UserTaskError),
        2 => Ok(TaskFailure::TaskOutputTooLarge),
        3 => Ok(TaskFailure::TaskRecordError),
        4 => Ok(TaskFailure::TaskPlaceRefused),
        5 => Ok(TaskFailure::TaskObjectMissing),
        _ => Err(Stop::NoSuchRow),
    }
}

fn bad(alloc: Global, row: &Row) -> Result<Outcome<Body>, Stop> {
    Ok(Outcome::Bad {
        failure: failure(row, 4)?,
        status: narrow(row.number(5)?)?,
        stderr: Bytes::from_slice(alloc, row.bytes(6)?)?,
    })
}

fn entry(row: &Row, outcome: Outcome<Body>) -> Result<TraceEntry<Body>, Stop> {
    Ok(TraceEntry {
        phase: narrow(row.number(1)?)?,
        place: row.number(2)?,
        position: row.number(3)?,
        outcome,
    })
}

fn document(alloc: Global, row: &Row) -> Result<JobDocument, Stop> {
    match read(alloc, LOGIN, row.bytes(3)?) {
        Ok(document) => Ok(document),
        Err(_) => Err(Stop::NoSuchRow),
    }
}

fn made(alloc: Global, number: u64, created: u64, document: JobDocument) -> Job<Body> {
    Job {
        number,
        document,
        assets: Sequence::new(alloc),
        inputs: Sequence::new(alloc),
        missing: Sequence::new(alloc),
        ended: false,
        cancelled: false,
        created,
        done: None,
        trace: Sequence::new(alloc),
    }
}

fn kind(row: &Row, place: usize) -> Result<LiveText, Stop> {
    match row.text(place)? {
        "in" => Ok(LiveText::In),
        "out" => Ok(LiveText::Out),
        "fail" => Ok(LiveText::Fail),
        "err" => Ok(LiveText::Err),
        "tasks" => Ok(LiveText::Tasks),
        "status" => Ok(LiveText::Status),
        _ => Err(Stop::NoSuchRow),
    }
}

// Whether the texts of a job may be asked for.
fn is_showable(job: &Job<Body>) -> bool
    ensures { IsTrue result → IsShowable job.now }
{
    if job.number >= NUMBERS_END || job.created > LAST_MOMENT {
        return false;
    }
    is_moment(job.done)
}

// Whether what is there is a moment.
fn is_moment(done: Option<u64>) -> bool
    ensures { IsTrue result → IfSome done (λ moment. moment ≤ LAST_MOMENT) }
{
    match done {
        None => true,
        Some(moment) => moment <= LAST_MOMENT,
    }
}

// How many lines and bytes a text has, and the text.
fn put_text(alloc: Global, kept: &FedJob<Body>, row: &Row, out: &mut String) -> Result<bool, Stop>
    requires { AreFeeds kept.now.job kept.now.feeds.items }
{
    if !is_showable(&kept.job) {
        return Err(Stop::NoSuchRow);
    }
    let kind = kind(row, 1)?;
    let len = text_len(alloc, LOGIN, kept, kind)?;
    write!(out, "{} {len}", line_count(kept, kind)?)?;
    put_behind(live_text(alloc, LOGIN, kept, kind)?.as_slice(), out)
}

// Bytes behind a blank, if there are any.
fn put_behind(bytes: &[u8], out: &mut String) -> Result<bool, Stop> {
    if !bytes.is_empty() {
        out.push(' ')?;
        put_escaped(out, bytes)?;
    }
    Ok(true)
}

// How many bytes a text has as a job will leave it, and the text.
fn put_closed(alloc: Global, kept: &FedJob<Body>, row: &Row, out: &mut String) -> Result<bool, Stop>
    requires { AreFeeds kept.now.job kept.now.feeds.items }
{
    let moment = row.number(3)?;
    if !is_showable(&kept.job) || moment > LAST_MOMENT {
        return Err(Stop::NoSuchRow);
    }
    let kind = kind(row, 1)?;
    let cancelled = row.number(2)? == 1;
    let len = closed_len(alloc, LOGIN, kept, kind, cancelled, moment)?;
    write!(out, "{len}")?;
    put_behind(
        closed_text(alloc, LOGIN, kept, kind, cancelled, moment)?.as_slice(),
        out,
    )
}

// A text that is read in pieces of so many bytes.
fn put_pieces(alloc: Global, kept: &FedJob<Body>, row: &Row, out: &mut String) -> Result<bool, Stop>
    requires { AreFeeds kept.now.job kept.now.feeds.items }
{
    if !is_showable(&kept.job) {
        return Err(Stop::NoSuchRow);
    }
    let mut lines = Lines::live(alloc, LOGIN, kept, kind(row, 1)?)?;
    put_lines(alloc, &mut lines, row.number(2)?, out)
}

// The same of a text as a job will leave it.
fn put_archive(
    alloc: Global,
    kept: &FedJob<Body>,
    row: &Row,
    out: &mut String,
) -> Result<bool, Stop>
    requires { AreFeeds kept.now.job kept.now.feeds.items }
{
    let moment = row.number(3)?;
    if !is_showable(&kept.job) || moment > LAST_MOMENT {
        return Err(Stop::NoSuchRow);
    }
    let cancelled = row.number(2)? == 1;
    let mut lines = Lines::closed(alloc, LOGIN, kept, kind(row, 1)?, cancelled, moment)?;
    put_lines(alloc, &mut lines, row.number(4)?, out)
}

// How many bytes are left, how many reads take them, and what they read.
fn put_lines(
    alloc: Global,
    lines: &mut Lines<Body>,
    size: u64,
    out: &mut String,
) -> Result<bool, Stop> {
    let mut piece = Vec::new(alloc);
    piece.resize(size as usize, 0)?;
    if piece.is_empty() {
        return Err(Stop::NoSuchRow);
    }
    write!(out, "{}", lines.len())?;
    put_reads(alloc, lines, &mut piece, out)
}

fn put_reads(
    alloc: Global,
    lines: &mut Lines<Body>,
    piece: &mut [u8],
    out: &mut String,
) -> Result<bool, Stop>
    requires { 0 < length piece.old }
{
    let mut text = Vec::new(alloc);
    let mut reads: u64 = 0;
    for read in 0..lines.len() {
        let ReadStep::Took(count) = lines.read(piece) else {
            break;
        };
        text.extend_from_slice(&piece[..count])?;
        reads = read + 1;
    }
    write!(out, " {reads}")?;
    put_behind(&text, out)
}

fn add_input(alloc: Global, job: &mut Job<Body>, row: &Row) -> Result<bool, Stop> {
    job.inputs.push(item(alloc, row, 1)?)?;
    Ok(true)
}

fn add_missing(alloc: Global, job: &mut Job<Body>, row: &Row) -> Result<bool, Stop> {
    job.missing.push(line(alloc, row, 1)?)?;
    Ok(true)
}

fn add_entry(job: &mut Job<Body>, row: &Row, outcome: Outcome<Body>) -> Result<bool, Stop> {
    job.trace.push(entry(row, outcome)?)?;
    Ok(true)
}

fn end_input(job: &mut Job<Body>) -> Result<bool, Stop> {
    job.ended = true;
    Ok(true)
}

fn set_done(job: &mut Job<Body>, row: &Row) -> Result<bool, Stop> {
    job.done = Some(row.number(1)?);
    job.cancelled = row.number(2)? == 1;
    Ok(true)
}

// Whether a row changes a job, which it then does.
fn changes(alloc: Global, job: &mut Job<Body>, row: &Row) -> Result<bool, Stop> {
    match row.text(0)? {
        "input" => add_input(alloc, job, row),
        "missing" => add_missing(alloc, job, row),
        "good" => add_entry(job, row, Outcome::Good(items(alloc, row, 4)?)),
        "bad" => add_entry(job, row, bad(alloc, row)?),
        "input-end" => end_input(job),
        "done" => set_done(job, row),
        _ => Ok(false),
    }
}

// The answer to a row on the texts of a job, if it is one.
fn on_kept(alloc: Global, kept: &FedJob<Body>, row: &Row, out: &mut String) -> Result<bool, Stop>
    requires { AreFeeds kept.now.job kept.now.feeds.items }
{
    match row.text(0)? {
        "text" => put_text(alloc, kept, row, out),
        "closed" => put_closed(alloc, kept, row, out),
        "pieces" => put_pieces(alloc, kept, row, out),
        "archive" => put_archive(alloc, kept, row, out),
        _ => Ok(false),
    }
}

// The job after a row, and whether the row was on it.
fn after(
    alloc: Global,
    job: Job<Body>,
    row: &Row,
    out: &mut String,
) -> Result<(Job<Body>, bool), Stop> {
    let mut job = job;
    let changed = changes(alloc, &mut job, row)?;
    let kept = FedJob::with_feeds(alloc, job)?;
    let answered = changed || on_kept(alloc, &kept, row, out)?;
    let FedJob { job, .. } = kept;
    Ok((job, answered))
}

impl Texts {
    /// No job.
    pub fn new() -> Texts {
        Texts { job: None }
    }

    // Makes a job of this number, moment and document.
    fn make(&mut self, alloc: Global, row: &Row) -> Result<bool, Stop> {
        let number = row.number(1)?;
        let created = row.number(2)?;
        let document = document(alloc, row)?;
        self.job = Some(made(alloc, number, created, document));
        Ok(true)
    }

    // The answer to a row on the job, if there is one and it is one.
    fn on_job(&mut self, alloc: Global, row: &Row, out: &mut String) -> Result<bool, Stop> {
        let Some(job) = self.job.take() else {
            return Ok(false);
        };
        let (job, answered) = after(alloc, job, row, out)?;
        self.job = Some(job);
        Ok(answered)
    }

    /// The answer to a row of this crate, if it is one.
    pub fn answer(&mut self, alloc: Global, row: &Row, out: &mut String) -> Result<bool, Stop> {
        match row.text(0)? {
            "job" => self.make(alloc, row),
            _ => self.on_job(alloc, row, out),
        }
    }
}

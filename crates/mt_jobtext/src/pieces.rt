//! The pieces of the texts, each made of one value that the job holds.
ghost use Rattle.std.specs.Prelude.{◌≡◌, ◌<◌, [], length, option_map, slice_index_or};
ghost use Rattle.serde_json.specs.Written.{compact_text};
ghost use Rattle.mt_feeds.specs.FedJob.{AreFeeds};
ghost use Rattle.mt_jobtext.specs.JobTexts.{failed_error, failed_name};
ghost use Rattle.mt_jobtext.specs.Pieces.{IsShown, adding_tasks, first_pieces, line_of, output_lines, piece_at, pieces_of, task_piece};
ghost use Rattle.mt_jobtext.specs.Windows.{Puts};

use crate::errors::{Failed, put_failed_line, put_missing_line};
use crate::found::{failed_path, items_of, path_of_task, reducer_of_task};
use crate::names::{put_item_lines, put_path_line, put_posted_line};
use crate::stats::Stats;
use crate::status::{Ending, put_status, status_count};
use crate::tasks::put_task_line;
use crate::window::Window;
use mt_feeds::FedJob;
use mt_types::{LiveText, Outcome, TraceEntry};

/// What a text is made of.
#[derive(Drop)]
pub(crate) struct Shown<'a, B> {
    /// The account's name.
    pub(crate) login: &'a str,
    /// The job, whose own end is not looked at, with what is kept beside it.
    pub(crate) kept: &'a FedJob<B>,
    /// How it ended.
    pub(crate) ending: Ending,
    /// Its numbers.
    pub(crate) stats: Stats,
    /// Which text.
    pub(crate) text: LiveText,
}

/// How many pieces are made of no task.
pub(crate) fn first_count<B>(shown: &Shown<B>) -> usize
    ensures { result ≡ length (first_pieces shown.now.login.now shown.now.kept.now.job shown.now.ending shown.now.text) }
{
    match shown.text {
        LiveText::In => shown.kept.job.inputs.len(),
        LiveText::Fail | LiveText::Err => shown.kept.job.missing.len(),
        LiveText::Status => status_count(&shown.kept.job),
        LiveText::Out | LiveText::Tasks => 0,
    }
}

/// The tasks that add to a text.
pub(crate) fn tasks<'a, B>(shown: &Shown<'a, B>) -> &'a [TraceEntry<B>]
    ensures { result.now ≡ adding_tasks shown.now.kept.now.job shown.now.text }
{
    match shown.text {
        LiveText::Out | LiveText::Fail | LiveText::Err | LiveText::Tasks => {
            shown.kept.job.trace.as_slice()
        }
        LiveText::In | LiveText::Status => &[],
    }
}

/// Adds the piece of this number.
pub(crate) fn put_piece<B>(window: &mut Window, shown: &Shown<B>, next: usize)
    requires shown { IsShown shown.now }
    requires there { next < length (pieces_of shown.now) }
    ensures { Puts (piece_at shown.now next) window.old window.new }
{
    let first = first_count(shown);
    if next < first {
        put_first(window, shown, next);
    } else {
        let tasks = tasks(shown);
        let task = &tasks[next - first];
        put_task(window, shown, task);
    }
}

// Adds a piece that is made of no task.
fn put_first<B>(window: &mut Window, shown: &Shown<B>, next: usize)
    requires shown { IsShown shown.now }
    requires there { next < length (first_pieces shown.now.login.now shown.now.kept.now.job shown.now.ending shown.now.text) }
    ensures { Puts (slice_index_or (first_pieces shown.now.login.now shown.now.kept.now.job shown.now.ending shown.now.text) next []) window.old window.new }
{
    let login = shown.login;
    let job = &shown.kept.job;
    match shown.text {
        LiveText::In => put_path_line(window, login, &job.inputs.as_slice()[next].name),
        LiveText::Fail => put_posted_line(window, login, &job.missing.as_slice()[next]),
        LiveText::Err => put_missing_line(window, login, &job.missing.as_slice()[next]),
        LiveText::Status => put_status(window, login, job, shown.ending, &shown.stats, next),
        LiveText::Out | LiveText::Tasks => {}
    }
}

// Adds what a committed task adds.
fn put_task<B>(window: &mut Window, shown: &Shown<B>, entry: &TraceEntry<B>)
    requires { IsShown shown.now }
    ensures { Puts (task_piece shown.now.login.now shown.now.kept.now.job shown.now.text entry.now) window.old window.new }
{
    let login = shown.login;
    let kept = shown.kept;
    match shown.text {
        LiveText::Out => put_outputs(window, login, kept.job.document.phases.len(), entry),
        LiveText::Fail => put_failed_name(window, login, kept, entry),
        LiveText::Err => put_error(window, login, kept, entry),
        LiveText::Tasks => put_task_line(window, entry),
        LiveText::In | LiveText::Status => {}
    }
}

// Adds the names of a task's outputs, where its phase is the last of so many.
fn put_outputs<B>(window: &mut Window, login: &str, phases: usize, entry: &TraceEntry<B>)
    ensures { Puts (output_lines login.now phases entry.now) window.old window.new }
{
    if entry.phase as u64 + 1 == phases as u64 {
        put_item_lines(window, login, items_of(&entry.outcome));
    }
}

// Adds a line with what a failed map task read.
fn put_failed_name<B>(window: &mut Window, login: &str, kept: &FedJob<B>, entry: &TraceEntry<B>)
    requires { AreFeeds kept.now.job kept.now.feeds.items }
    ensures { Puts (line_of (failed_name login.now kept.now.job entry.now)) window.old window.new }
{
    if let Some(path) = failed_path(kept, entry) {
        put_path_line(window, login, path);
    }
}

// Adds a line that tells why a task failed.
fn put_error<B>(window: &mut Window, login: &str, kept: &FedJob<B>, entry: &TraceEntry<B>)
    requires { AreFeeds kept.now.job kept.now.feeds.items }
    ensures { Puts (line_of (option_map compact_text (failed_error login.now kept.now.job entry.now))) window.old window.new }
{
    if let Outcome::Bad {
        failure,
        status,
        stderr,
    } = &entry.outcome
    {
        let failed = Failed {
            input: path_of_task(kept, entry.phase, entry.place),
            reducer: reducer_of_task(&kept.job, entry.phase, entry.place),
            phase: entry.phase,
            failure: *failure,
            status: *status,
            stderr,
        };
        put_failed_line(window, login, &failed);
    }
}

//! Failures as JSON in a window.
ghost use Rattle.std.specs.Prelude.{◌≡◌, option_copied, option_map};
ghost use Rattle.serde_json.specs.Written.{compact_text};
ghost use Rattle.mt_path.specs.AccountPath.{path_text};
ghost use Rattle.mt_jobtext.specs.JobTexts as words;
ghost use Rattle.mt_jobtext.specs.JobTexts.{line, missing_error, posted_text, task_error};
ghost use Rattle.mt_jobtext.specs.Members.{input_text, reducer_text};
ghost use Rattle.mt_jobtext.specs.Windows.{Puts};

use crate::names::{put_path, put_posted};
use crate::quotes::{put_lossy, put_number, put_quoted};
use crate::window::Window;
use mt_base::Bytes;
use mt_path::Path;
use mt_types::{InputLine, TaskFailure};

/// What is told of a task that failed.
#[derive(Drop)]
pub(crate) struct Failed<'a> {
    /// What it read, of a map task.
    pub(crate) input: Option<&'a Path>,
    /// Its number, of a reducer.
    pub(crate) reducer: Option<u64>,
    /// Its phase, counted from 0.
    pub(crate) phase: u32,
    /// Why.
    pub(crate) failure: TaskFailure,
    /// Its exit status.
    pub(crate) status: u32,
    /// A front of standard error.
    pub(crate) stderr: &'a Bytes,
}

/// Adds a line for a posted line that named no object.
#[tactic(auto, unfolding(crate::specs::JobTexts::missing_error, json::specs::Print::escape_byte))]
pub(crate) fn put_missing_line(window: &mut Window, login: &str, posted: &InputLine)
    ensures { Puts (line (compact_text (missing_error (posted_text login.now posted.now)))) window.old window.new }
{
    window.put(b"{\"code\":\"ResourceNotFound\",\"input\":\"");
    put_posted(window, login, posted);
    window.put(b"\",\"message\":\"no such object\",\"phase\":");
    put_number(window, 0);
    window.put(b"}\n");
}

/// Adds a line for a task that failed.
#[tactic(auto, unfolding(crate::specs::JobTexts::task_error, json::specs::Print::escape_byte))]
pub(crate) fn put_failed_line(window: &mut Window, login: &str, failed: &Failed)
    ensures { let f = failed.now in Puts (line (compact_text (task_error (option_map (path_text login.now) (option_copied f.input)) f.reducer f.phase f.failure f.status f.stderr.now))) window.old window.new }
{
    window.put(b"{\"code\":");
    put_quoted(window, code(failed.failure).as_bytes());
    put_input(window, login, failed.input);
    window.put(b",\"message\":");
    put_quoted(window, message(failed.failure).as_bytes());
    window.put(b",\"phase\":");
    put_number(window, failed.phase as u64);
    put_reducer(window, failed.reducer);
    window.put(b",\"status\":");
    put_number(window, failed.status as u64);
    window.put(b",\"stderr\":");
    put_lossy(window, failed.stderr.as_slice());
    window.put(b"}\n");
}

// Adds the member of the input behind another, where there is one.
fn put_input(window: &mut Window, login: &str, input: Option<&Path>)
    ensures { Puts (input_text (option_map (path_text login.now) (option_copied input.entry))) window.old window.new }
{
    if let Some(path) = input {
        window.put(b",\"input\":\"");
        put_path(window, login, path);
        window.put(b"\"");
    }
}

// Adds the member of the reducer behind another, where there is one.
fn put_reducer(window: &mut Window, reducer: Option<u64>)
    ensures { Puts (reducer_text reducer) window.old window.new }
{
    if let Some(number) = reducer {
        window.put(b",\"reducer\":");
        put_number(window, number);
    }
}

// The word for a cause.
fn code(failure: TaskFailure) -> &'static str
    ensures { result.now ≡ words.failure_code failure }
{
    match failure {
        TaskFailure::UserTaskError => "UserTaskError",
        TaskFailure::TaskOutputTooLarge => "TaskOutputTooLarge",
        TaskFailure::TaskRecordError => "TaskRecordError",
        TaskFailure::TaskPlaceRefused => "TaskPlaceRefused",
        TaskFailure::TaskObjectMissing => "TaskObjectMissing",
    }
}

// A cause in words.
fn message(failure: TaskFailure) -> &'static str
    ensures { result.now ≡ words.failure_message failure }
{
    match failure {
        TaskFailure::UserTaskError => "the command ended with a status other than 0",
        TaskFailure::TaskOutputTooLarge => "the task's output is over the limit",
        TaskFailure::TaskRecordError => "a helper's record is not whole",
        TaskFailure::TaskPlaceRefused => "an output's place cannot hold an object",
        TaskFailure::TaskObjectMissing => "a named object is not there",
    }
}

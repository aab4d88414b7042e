//! Committed tasks as JSON in a window.
ghost use Rattle.std.specs.Prelude.{◌≡◌};
ghost use Rattle.serde_json.specs.Written.{compact_text};
ghost use Rattle.mt_jobtext.specs.JobTexts.{line, outcome_word, task_data};
ghost use Rattle.mt_jobtext.specs.Windows.{Puts};

use crate::found::items_of;
use crate::quotes::{put_number, put_quoted};
use crate::window::Window;
use mt_types::{Outcome, TraceEntry};

/// Adds a line for a committed task.
#[tactic(auto, unfolding(crate::specs::JobTexts::task_data, json::specs::Print::escape_byte))]
pub(crate) fn put_task_line<B>(window: &mut Window, entry: &TraceEntry<B>)
    ensures { Puts (line (compact_text (task_data entry.now))) window.old window.new }
{
    window.put(b"{\"outputs\":");
    put_number(window, items_of(&entry.outcome).len() as u64);
    window.put(b",\"phase\":");
    put_number(window, entry.phase as u64);
    window.put(b",\"place\":");
    put_number(window, entry.place);
    window.put(b",\"position\":");
    put_number(window, entry.position);
    window.put(b",\"state\":");
    put_quoted(window, word(&entry.outcome).as_bytes());
    window.put(b"}\n");
}

// What a task came to, in a word.
fn word<B>(outcome: &Outcome<B>) -> &'static str
    ensures { result.now ≡ outcome_word outcome.now }
{
    match outcome {
        Outcome::Good(_) => "ok",
        Outcome::Bad { .. } => "failed",
    }
}

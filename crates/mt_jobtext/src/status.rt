//! The status of a job as JSON in a window.
ghost use Rattle.std.specs.Prelude.{◌≡◌, ◌<◌, ◌≤◌, ◌*◌, ◌^◌, ℕ, List, [], IfSome, length, slice_index_or};
ghost use Rattle.serde_json.specs.Written.{compact_text};
ghost use Rattle.mt_jobtext.specs.JobTexts as words;
ghost use Rattle.mt_jobtext.specs.JobTexts.{time_data};
ghost use Rattle.mt_jobtext.specs.Ended.{ended_as, stats_text};
ghost use Rattle.mt_jobtext.specs.Pieces.{HasStats, IsShowable};
ghost use Rattle.mt_jobtext.specs.StatusPieces as cut;
ghost use Rattle.mt_jobtext.specs.StatusPieces.{status_front, status_pieces, status_rest};
ghost use Rattle.mt_jobtext.specs.declared.status.Ending.{Ending};
ghost use Rattle.mt_jobtext.specs.Windows.{Puts};

use crate::phases::put_phases;
use crate::quotes::{put_escaped, put_flag, put_number, put_quoted};
use crate::stats::Stats;
use crate::window::Window;
use mt_base::{LAST_MOMENT, Text};
use mt_ident::{iso_time, uuid_text};
use mt_types::Job;

/// How a job ended, if it did.
#[derive(Clone, Copy)]
pub(crate) struct Ending {
    /// Whether it was cancelled.
    pub(crate) cancelled: bool,
    /// When it was done, in seconds since 1970.
    pub(crate) done: Option<u64>,
}

/// The name of a job stands in parts of so many bytes.
const PART: usize = 4_096;

/// How many pieces the status of a job has.
pub(crate) fn status_count<B>(job: &Job<B>) -> usize
    ensures { (login : List ℕ) (ending : Ending) → result ≡ length (status_pieces login (ended_as job.now ending)) }
{
    part_count(&job.document.name) + 2
}

// How many parts a name has.
fn part_count(name: &Text) -> usize
    ensures count { result ≡ cut.part_count name.now }
    ensures few { result ≤ 2 ^ 60 }
{
    name.len() / PART + 1
}

// A part of a name.
fn part_of(name: &[u8], k: usize) -> &[u8]
    requires { k * PART ≤ length name.now }
    ensures { result.now ≡ cut.part_of name.now k }
{
    let rest = &name[k * PART..];
    let count = rest.len().min(PART);
    &rest[..count]
}

/// Adds the piece of this number of the status of a job that ended so.
pub(crate) fn put_status<B>(
    window: &mut Window,
    login: &str,
    job: &Job<B>,
    ending: Ending,
    stats: &Stats,
    next: usize,
)
    requires showable { IsShowable (ended_as job.now ending) }
    requires stats { HasStats (ended_as job.now ending) stats.now }
    requires there { next < length (status_pieces login.now (ended_as job.now ending)) }
    ensures { Puts (slice_index_or (status_pieces login.now (ended_as job.now ending)) next []) window.old window.new }
{
    let name = &job.document.name;
    if next == 0 {
        put_front(window, job, ending);
    } else if next <= part_count(name) {
        put_escaped(window, part_of(name.as_bytes(), next - 1));
    } else {
        put_rest(window, login, job, ending, stats);
    }
}

// Adds what stands before the name.
#[tactic(auto, unfolding(crate::specs::StatusPieces::status_front))]
fn put_front<B>(window: &mut Window, job: &Job<B>, ending: Ending)
    requires { IsShowable (ended_as job.now ending) }
    ensures { Puts (status_front (ended_as job.now ending)) window.old window.new }
{
    window.put(b"{\"cancelled\":");
    put_flag(window, ending.cancelled);
    window.put(b",\"id\":");
    put_quoted(window, &uuid_text(2, job.number));
    window.put(b",\"inputDone\":");
    put_flag(window, job.ended);
    window.put(b",\"name\":\"");
}

// Adds what stands behind it.
#[tactic(auto, unfolding(crate::specs::StatusPieces::status_rest))]
fn put_rest<B>(window: &mut Window, login: &str, job: &Job<B>, ending: Ending, stats: &Stats)
    requires showable { IsShowable (ended_as job.now ending) }
    requires stats { HasStats (ended_as job.now ending) stats.now }
    ensures { Puts (status_rest login.now (ended_as job.now ending)) window.old window.new }
{
    window.put(b"\",\"phases\":");
    put_phases(window, login, &job.document);
    window.put(b",\"state\":");
    put_quoted(window, state(ending.done).as_bytes());
    window.put(b",\"stats\":");
    put_stats(window, stats);
    window.put(b",\"timeCreated\":");
    put_time(window, Some(job.created));
    window.put(b",\"timeDone\":");
    put_time(window, ending.done);
    window.put(b"}");
}

// The word for a job that was done then.
fn state(done: Option<u64>) -> &'static str
    ensures { result.now ≡ words.state_word done }
{
    match done {
        None => "running",
        Some(_) => "done",
    }
}

// Adds the numbers of a job.
fn put_stats(window: &mut Window, stats: &Stats)
    ensures { Puts (stats_text stats.now) window.old window.new }
{
    window.put(b"{\"errors\":");
    put_number(window, stats.errors);
    window.put(b",\"inputs\":");
    put_number(window, stats.inputs);
    window.put(b",\"outputs\":");
    put_number(window, stats.outputs);
    window.put(b",\"tasksDone\":");
    put_number(window, stats.tasks);
    window.put(b"}");
}

// Adds a moment, or that there is none.
fn put_time(window: &mut Window, moment: Option<u64>)
    requires { IfSome moment (λ m. m ≤ LAST_MOMENT) }
    ensures { Puts (compact_text (time_data moment)) window.old window.new }
{
    match moment {
        None => window.put(b"null"),
        Some(moment) => put_quoted(window, &iso_time(moment)),
    }
}

//! How long the lines of names are, by their lengths alone.
ghost use Rattle.std.specs.Prelude.{◌≡◌, IfOk, length};
ghost use Rattle.std.specs.List.{flat_map};
ghost use Rattle.mt_path.specs.AccountPath.{path_text};
ghost use Rattle.mt_jobtext.specs.JobTexts.{line};
ghost use Rattle.mt_jobtext.specs.Pieces.{output_lines};

use crate::found::items_of;
use crate::names::line_len;
use crate::stats::sum;
use mt_types::{Item, TraceEntry};
use std::alloc::AllocError;

/// How many bytes the lines of the outputs of tasks have, where their phase is the last of so many. The error is a number that is
/// not below 2 ^ 64.
pub(crate) fn outputs_len<B>(
    login: &str,
    phases: usize,
    trace: &[TraceEntry<B>],
) -> Result<u64, AllocError>
    ensures { IfOk result (λ n. n ≡ length (flat_map (output_lines login.now phases) trace.now)) }
{
    let mut len = 0;
    for entry in trace {
        let more = task_len(login, phases, entry)?;
        len = sum(len, more)?;
    }
    Ok(len)
}

// The same of one task.
fn task_len<B>(login: &str, phases: usize, entry: &TraceEntry<B>) -> Result<u64, AllocError>
    ensures { IfOk result (λ n. n ≡ length (output_lines login.now phases entry.now)) }
{
    if entry.phase as u64 + 1 == phases as u64 {
        return items_len(login, items_of(&entry.outcome));
    }
    Ok(0)
}

/// How many bytes the lines of items have. The error is a number that is not below 2 ^ 64.
pub(crate) fn items_len<B>(login: &str, items: &[Item<B>]) -> Result<u64, AllocError>
    ensures { IfOk result (λ n. n ≡ length (flat_map (λ i. line (path_text login.now i.name)) items.now)) }
{
    let mut len = 0;
    for item in items {
        len = sum(len, line_len(login, &item.name) as u64)?;
    }
    Ok(len)
}

//! How long a text of a job is.
ghost use Rattle.std.specs.Prelude.{◌≡◌, ◌≤◌, IfOk, length};
ghost use Rattle.mt_feeds.specs.FedJob.{AreFeeds};
ghost use Rattle.mt_model.specs.JobSteps.{done_at};
ghost use Rattle.mt_jobtext.specs.Ended.{ended_as};
ghost use Rattle.mt_jobtext.specs.JobTexts.{text_of};
ghost use Rattle.mt_jobtext.specs.Pieces.{IsShowable, IsShown, joined_pieces, pieces_of};

use crate::fill::put_all;
use crate::lengths::{items_len, outputs_len};
use crate::pieces::Shown;
use crate::stats::needed_stats;
use crate::status::Ending;
use crate::whole::{piece_count, shown};
use crate::window::Window;
use mt_base::LAST_MOMENT;
use mt_feeds::FedJob;
use mt_types::LiveText;
use std::alloc::{AllocError, Global};

/// How many bytes a text of a job as it stands has. It takes no memory: the error says that the number is not below
/// 2 ^ 64 - 1, which no memory holds.
pub fn text_len<B>(
    alloc: Global,
    login: &str,
    kept: &FedJob<B>,
    text: LiveText,
) -> Result<u64, AllocError>
    requires showable { IsShowable kept.now.job }
    requires feeds { AreFeeds kept.now.job kept.now.feeds.items }
    ensures { IfOk result (λ n. n ≡ length (text_of login.now kept.now.job text)) }
{
    let ending = Ending {
        cancelled: kept.job.cancelled,
        done: kept.job.done,
    };
    ended_len(alloc, login, kept, ending, text)
}

/// How many bytes a text of a job has as it will be once it is done at a moment, in seconds since 1970. It takes no memory, and the
/// error says the same.
pub fn closed_len<B>(
    alloc: Global,
    login: &str,
    kept: &FedJob<B>,
    text: LiveText,
    cancelled: bool,
    moment: u64,
) -> Result<u64, AllocError>
    requires showable { IsShowable kept.now.job }
    requires feeds { AreFeeds kept.now.job kept.now.feeds.items }
    requires moment { moment ≤ LAST_MOMENT }
    ensures { IfOk result (λ n. n ≡ length (text_of login.now (done_at moment cancelled kept.now.job) text)) }
{
    let ending = Ending {
        cancelled,
        done: Some(moment),
    };
    ended_len(alloc, login, kept, ending, text)
}

// How many bytes a text of a job has that ended so.
fn ended_len<B>(
    alloc: Global,
    login: &str,
    kept: &FedJob<B>,
    ending: Ending,
    text: LiveText,
) -> Result<u64, AllocError>
    requires showable { IsShowable (ended_as kept.now.job ending) }
    requires feeds { AreFeeds kept.now.job kept.now.feeds.items }
    ensures { IfOk result (λ n. n ≡ length (text_of login.now (ended_as kept.now.job ending) text)) }
{
    let stats = needed_stats(&kept.job, text)?;
    let shown = shown(login, kept, ending, stats, text);
    let count = piece_count(&shown)?;
    joined_len(alloc, &shown, count)
}

/// How many bytes a text has. It takes no memory: the error is a number that is not below 2 ^ 64 - 1. Names of inputs and outputs are
/// counted by their lengths.
pub(crate) fn joined_len<B>(
    alloc: Global,
    shown: &Shown<B>,
    count: usize,
) -> Result<u64, AllocError>
    requires shown { IsShown shown.now }
    requires count { count ≡ length (pieces_of shown.now) }
    ensures { IfOk result (λ n. n ≡ length (joined_pieces shown.now)) }
{
    let job = &shown.kept.job;
    match shown.text {
        LiveText::In => items_len(shown.login, job.inputs.as_slice()),
        LiveText::Out => outputs_len(shown.login, job.document.phases.len(), job.trace.as_slice()),
        LiveText::Fail | LiveText::Err | LiveText::Tasks | LiveText::Status => {
            counted_len(alloc, shown, count)
        }
    }
}

// The same of any text, piece by piece.
fn counted_len<B>(alloc: Global, shown: &Shown<B>, count: usize) -> Result<u64, AllocError>
    requires shown { IsShown shown.now }
    requires count { count ≡ length (pieces_of shown.now) }
    ensures { IfOk result (λ n. n ≡ length (joined_pieces shown.now)) }
{
    let mut window = Window::counting(alloc);
    put_all(&mut window, shown, count);
    if window.skip() == 0 {
        return Err(AllocError);
    }
    Ok(u64::MAX - window.skip())
}

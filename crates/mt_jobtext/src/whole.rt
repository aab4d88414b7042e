//! A whole text of a job.
ghost use Rattle.std.specs.Prelude.{◌≡◌, ◌<◌, ◌≤◌, IfOk, length};
ghost use Rattle.mt_feeds.specs.FedJob.{AreFeeds};
ghost use Rattle.mt_model.specs.JobSteps.{done_at};
ghost use Rattle.mt_jobtext.specs.Ended.{ended_as};
ghost use Rattle.mt_jobtext.specs.JobTexts.{text_of};
ghost use Rattle.mt_jobtext.specs.Pieces as pieces;
ghost use Rattle.mt_jobtext.specs.Pieces.{NeedsStats, IsShowable, IsShown, joined_pieces, pieces_of};

use crate::fill::put_all;
use crate::pieces::{Shown, first_count, tasks};
use crate::sizes::joined_len;
use crate::stats::{Stats, needed_stats, sum};
use crate::status::Ending;
use crate::window::Window;
use mt_base::{Bytes, LAST_MOMENT};
use mt_feeds::FedJob;
use mt_types::{Job, LiveText};
use std::alloc::{AllocError, Global};

/// A text of a job as it stands. Its only allocation is the text.
pub fn live_text<B>(
    alloc: Global,
    login: &str,
    kept: &FedJob<B>,
    text: LiveText,
) -> Result<Bytes, AllocError>
    requires showable { IsShowable kept.now.job }
    requires feeds { AreFeeds kept.now.job kept.now.feeds.items }
    ensures { IfOk result (λ bytes. bytes ≡ text_of login.now kept.now.job text) }
{
    let ending = Ending {
        cancelled: kept.job.cancelled,
        done: kept.job.done,
    };
    written(alloc, login, kept, ending, text)
}

/// A text of a job as it will be once it is done at a moment, in seconds since 1970. Its only allocation is the text.
pub fn closed_text<B>(
    alloc: Global,
    login: &str,
    kept: &FedJob<B>,
    text: LiveText,
    cancelled: bool,
    moment: u64,
) -> Result<Bytes, AllocError>
    requires showable { IsShowable kept.now.job }
    requires feeds { AreFeeds kept.now.job kept.now.feeds.items }
    requires moment { moment ≤ LAST_MOMENT }
    ensures { IfOk result (λ bytes. bytes ≡ text_of login.now (done_at moment cancelled kept.now.job) text) }
{
    let ending = Ending {
        cancelled,
        done: Some(moment),
    };
    written(alloc, login, kept, ending, text)
}

// A text of a job that ended so. Numbers that are not below 2 ^ 64 are told as want of memory, since none holds so much.
fn written<B>(
    alloc: Global,
    login: &str,
    kept: &FedJob<B>,
    ending: Ending,
    text: LiveText,
) -> Result<Bytes, AllocError>
    requires showable { IsShowable (ended_as kept.now.job ending) }
    requires feeds { AreFeeds kept.now.job kept.now.feeds.items }
    ensures { IfOk result (λ bytes. bytes ≡ text_of login.now (ended_as kept.now.job ending) text) }
{
    let stats = needed_stats(&kept.job, text)?;
    let shown = shown(login, kept, ending, stats, text);
    let count = piece_count(&shown)?;
    let len = joined_len(alloc, &shown, count)?;
    joined(alloc, &shown, count, len)
}

/// What a text is made of.
pub(crate) fn shown<'a, B>(
    login: &'a str,
    kept: &'a FedJob<B>,
    ending: Ending,
    stats: Stats,
    text: LiveText,
) -> Shown<'a, B>
    requires showable { IsShowable (ended_as kept.now.job ending) }
    requires feeds { AreFeeds kept.now.job kept.now.feeds.items }
    requires stats { NeedsStats kept.now.job text stats }
    ensures shown { IsShown result }
    ensures joined { joined_pieces result ≡ text_of login.now (ended_as kept.now.job ending) text }
{
    Shown {
        login,
        kept,
        ending,
        stats,
        text: shown_text(&kept.job, text),
    }
}

// A job without phases has no outputs but its inputs.
fn shown_text<B>(job: &Job<B>, text: LiveText) -> LiveText
    ensures { result ≡ pieces.shown_text job.now text }
{
    match text {
        LiveText::Out => {
            if job.document.phases.len() == 0 {
                LiveText::In
            } else {
                LiveText::Out
            }
        }
        other => other,
    }
}

/// How many pieces a text has. The error is a number that is not below 2 ^ 64, as much as no memory holds.
pub(crate) fn piece_count<B>(shown: &Shown<B>) -> Result<usize, AllocError>
    ensures { IfOk result (λ n. n ≡ length (pieces_of shown.now)) }
{
    let tasks = tasks(shown);
    let count = sum(first_count(shown) as u64, tasks.len() as u64)?;
    Ok(count as usize)
}

// The text of so many bytes.
fn joined<B>(alloc: Global, shown: &Shown<B>, count: usize, len: u64) -> Result<Bytes, AllocError>
    requires shown { IsShown shown.now }
    requires count { count ≡ length (pieces_of shown.now) }
    requires len { len ≡ length (joined_pieces shown.now) }
    ensures { IfOk result (λ bytes. bytes ≡ joined_pieces shown.now) }
{
    let mut window = Window::of(alloc, len as usize)?;
    put_all(&mut window, shown, count);
    Ok(window.into_bytes())
}

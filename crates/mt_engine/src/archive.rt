//! The five texts that a job leaves as it ends.
ghost use Rattle.std.specs.Prelude.{◌≡◌, ◌≤◌, ◌+◌, IfOk, length};
ghost use Rattle.mt_body.specs.Growth.{archive_pieces};
ghost use Rattle.mt_body.specs.Stored.{pieces_size};
ghost use Rattle.mt_feeds.specs.FedJob.{AreFeeds};
ghost use Rattle.mt_jobtext.specs.JobTexts.{archive_of, text_of};
ghost use Rattle.mt_jobtext.specs.Pieces.{IsShowable};
ghost use Rattle.mt_model.specs.JobSteps.{done_at};
ghost use Rattle.mt_engine.specs.Archiving.{texts_size};

use crate::engine::Engine;
use mt_base::LAST_MOMENT;
use mt_feeds::FedJob;
use mt_jobtext::{LiveText, closed_len, lawful_is_showable};
use mt_types::Body;
use std::alloc::{AllocError, Global};

// A sum; one that is not below 2 ^ 64 counts as want of memory, since none holds so much.
fn sum(a: u64, b: u64) -> Result<u64, AllocError>
    ensures { IfOk result (λ n. n ≡ a + b) }
{
    match a.checked_add(b) {
        Some(sum) => Ok(sum),
        None => Err(AllocError),
    }
}

// How much the pieces of a body of so many bytes add to a log.
fn pieces_len(len: u64) -> Result<u64, AllocError>
    ensures { IfOk result (λ n. n ≡ pieces_size len) }
{
    let rounded = sum(len, 65_535)?;
    sum(len, 22 * (rounded / 65_536))
}

// The pieces of one text.
fn text_pieces(
    alloc: Global,
    login: &str,
    kept: &FedJob<Body>,
    text: LiveText,
    cancelled: bool,
    moment: u64,
) -> Result<u64, AllocError>
    requires showable { IsShowable kept.now.job }
    requires feeds { AreFeeds kept.now.job kept.now.feeds.items }
    requires moment { moment ≤ LAST_MOMENT }
    ensures { IfOk result (λ n. n ≡ pieces_size (length (text_of login.now (done_at moment cancelled kept.now.job) text))) }
{
    let len = closed_len(alloc, login, kept, text, cancelled, moment)?;
    pieces_len(len)
}

// The pieces of all five.
fn archive_pieces(
    alloc: Global,
    login: &str,
    kept: &FedJob<Body>,
    cancelled: bool,
    moment: u64,
) -> Result<u64, AllocError>
    requires showable { IsShowable kept.now.job }
    requires feeds { AreFeeds kept.now.job kept.now.feeds.items }
    requires moment { moment ≤ LAST_MOMENT }
    ensures { IfOk result (λ n. n ≡ archive_pieces (archive_of login.now (done_at moment cancelled kept.now.job))) }
{
    let err = text_pieces(alloc, login, kept, LiveText::Err, cancelled, moment)?;
    let fail = text_pieces(alloc, login, kept, LiveText::Fail, cancelled, moment)?;
    let input = text_pieces(alloc, login, kept, LiveText::In, cancelled, moment)?;
    let status = text_pieces(alloc, login, kept, LiveText::Status, cancelled, moment)?;
    let out = text_pieces(alloc, login, kept, LiveText::Out, cancelled, moment)?;
    let failed = sum(err, fail)?;
    let named = sum(failed, input)?;
    let told = sum(named, status)?;
    sum(told, out)
}

impl Engine {
    /// How much the five texts of a job add to the log, as pieces, as it is once it is done so at a moment in seconds since 1970; 0
    /// where there is no such job. Each text is gone over once, and no memory is taken: the error says that the number is not below
    /// 2 ^ 64, which no memory holds.
    pub fn archive_len(
        &self,
        alloc: Global,
        login: &str,
        job: u64,
        cancelled: bool,
        moment: u64,
    ) -> Result<u64, AllocError>
        requires { moment ≤ LAST_MOMENT }
        ensures { IfOk result (λ n. n ≡ texts_size login.now self.now job cancelled moment) }
    {
        lawful_is_showable();
        // so few that the number of each job has an identifier
        let _ = self.position();
        let jobs = self.jobs();
        match jobs.kept(job) {
            Some(kept) => archive_pieces(alloc, login, kept, cancelled, moment),
            None => Ok(0),
        }
    }
}

//! A text of a job as a source, which is made while it is read.
use crate::fill::{Place, fill};
use crate::pieces::Shown;
use crate::sizes::joined_len;
use crate::stats::needed_stats;
use crate::status::Ending;
use crate::whole::{piece_count, shown};
use crate::window::Window;
use mt_base::LAST_MOMENT;
use mt_edge::{ReadStep, Source};
use mt_feeds::FedJob;
use mt_types::LiveText;
use std::alloc::{AllocError, Global};
use std::marker::Model;

/// The most bytes of a text that are made at once.
const MOST: u64 = 65_536;

/// A text of a job that is made while it is read, as the bytes that are left of it. It holds 65,536 bytes at most, however
/// long the text is, and no read takes memory.
#[derive(Drop)]
pub struct Lines<'a, B> {
    shown: Shown<'a, B>,
    count: usize,
    place: Place,
    left: u64,
    window: Window,
}

impl<'a, B> Model for Lines<'a, B> {
    ghost use Rattle.std.specs.Prelude.{List, ℕ};
    ghost use Rattle.mt_jobtext.specs.Lines.{IsReady};
    ghost use Rattle.mt_jobtext.specs.Pieces.{pieces_of};
    ghost use Rattle.mt_jobtext.specs.Places.{left_of};

    ghost Value = { List ℕ };

    ghost view = { λ s. left_of (pieces_of s.shown) s.place };

    ghost invariant = { λ s. IsReady s.shown s.count s.place s.left s.window.size };
}

impl<'a, B> Lines<'a, B> {
    ghost use Rattle.std.specs.Prelude.{◌≡◌, ◌≤◌, IfOk, length};
    ghost use Rattle.mt_feeds.specs.FedJob.{AreFeeds};
    ghost use Rattle.mt_model.specs.JobSteps.{done_at};
    ghost use Rattle.mt_jobtext.specs.Ended.{ended_as};
    ghost use Rattle.mt_jobtext.specs.JobTexts.{text_of};
    ghost use Rattle.mt_jobtext.specs.Pieces.{IsShowable};

    /// A text of a job as it stands.
    pub fn live(
        alloc: Global,
        login: &'a str,
        kept: &'a FedJob<B>,
        text: LiveText,
    ) -> Result<Lines<'a, B>, AllocError>
        requires showable { IsShowable kept.now.job }
        requires feeds { AreFeeds kept.now.job kept.now.feeds.items }
        ensures { IfOk result (λ lines. lines ≡ text_of login.now kept.now.job text) }
    {
        let ending = Ending {
            cancelled: kept.job.cancelled,
            done: kept.job.done,
        };
        Lines::of(alloc, login, kept, ending, text)
    }

    /// A text of a job as it will be once it is done at a moment, in seconds since 1970.
    pub fn closed(
        alloc: Global,
        login: &'a str,
        kept: &'a FedJob<B>,
        text: LiveText,
        cancelled: bool,
        moment: u64,
    ) -> Result<Lines<'a, B>, AllocError>
        requires showable { IsShowable kept.now.job }
        requires feeds { AreFeeds kept.now.job kept.now.feeds.items }
        requires moment { moment ≤ LAST_MOMENT }
        ensures { IfOk result (λ lines. lines ≡ text_of login.now (done_at moment cancelled kept.now.job) text) }
    {
        let ending = Ending {
            cancelled,
            done: Some(moment),
        };
        Lines::of(alloc, login, kept, ending, text)
    }

    // A text of a job that ended so. Numbers that are not below 2 ^ 64 are told as want of memory, since none holds so much.
    fn of(
        alloc: Global,
        login: &'a str,
        kept: &'a FedJob<B>,
        ending: Ending,
        text: LiveText,
    ) -> Result<Lines<'a, B>, AllocError>
        requires showable { IsShowable (ended_as kept.now.job ending) }
        requires feeds { AreFeeds kept.now.job kept.now.feeds.items }
        ensures { IfOk result (λ lines. lines ≡ text_of login.now (ended_as kept.now.job ending) text) }
    {
        let stats = needed_stats(&kept.job, text)?;
        let shown = shown(login, kept, ending, stats, text);
        let count = piece_count(&shown)?;
        let left = joined_len(alloc, &shown, count)?;
        let window = Window::of(alloc, left.min(MOST).max(1) as usize)?;
        Ok(Lines {
            shown,
            count,
            place: Place { next: 0, at: 0 },
            left,
            window,
        })
    }

    /// How many bytes are left. It takes no memory.
    pub fn len(&self) -> u64
        ensures { result ≡ length self.now }
    {
        self.left
    }
}

impl<'a, B> Source for Lines<'a, B> {
    ghost use Rattle.std.specs.Prelude.{Some, ⊤};

    ghost left = { λ s. Some s };

    ghost read_faults = { λ s. 0 };

    ghost source_stays = { λ a b. ⊤ };

    fn read(&mut self, into: &mut [u8]) -> ReadStep {
        self.place = fill(
            &mut self.window,
            &self.shown,
            self.count,
            self.place,
            into.len(),
        );
        let got = self.window.got();
        let count = got.len();
        if count == 0 {
            return ReadStep::End;
        }
        into[..count].copy_from_slice(got);
        self.left -= count as u64;
        ReadStep::Took(count)
    }

    ghost source_same = { λ a. tt };

    ghost source_joined = { λ a b c h k. tt };
}

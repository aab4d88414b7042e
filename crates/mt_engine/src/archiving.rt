//! Storing the five texts that a job leaves as it ends.
ghost use Rattle.std.specs.Prelude.{◌≡◌, ◌≤◌, true, is_some, IfSome};
ghost use Rattle.mt_jobtext.specs.JobTexts.{text_of};
ghost use Rattle.mt_model.specs.JobSteps.{done_at};
ghost use Rattle.mt_model.specs.State.{job_at};
ghost use Rattle.mt_engine.specs.Archiving.{ArchiveGoes, TextGoes, ended_by};
ghost use Rattle.mt_engine.specs.Ready.{RunIsReady};

use crate::engine::Engine;
use md5::{Digest, Md5};
use mt_base::LAST_MOMENT;
use mt_body::{Storing, store};
use mt_disk::Disk;
use mt_jobtext::{Lines, LiveText, lawful_is_showable};
use mt_log::Run;
use mt_types::{Archive, Body};
use std::alloc::{AllocError, Global};

/// What became of the texts of a job.
#[derive(Debug, PartialEq, Eq, Drop)]
pub enum Archiving {
    /// All five are in the run, and these name them.
    Stored(Archive<Body>),
    /// A piece would have passed the log's limit. The pieces before it stay in the run.
    Full,
    /// The disk has failed, and the log is closed.
    Disk,
    /// Out of memory. The pieces before stay in the run.
    Memory,
}

// How a job ends: its number, whether it is cancelled, and when, in seconds since 1970.
#[derive(Clone, Copy)]
struct Ending {
    job: u64,
    cancelled: bool,
    moment: u64,
}

// How the storing of texts ends that did not store one.
fn ended(stored: &Storing) -> Archiving
    ensures { result ≡ ended_by stored.now }
{
    match stored {
        Storing::Full => Archiving::Full,
        Storing::Disk => Archiving::Disk,
        // a text has no fault
        Storing::Stored(_) | Storing::SourceFault | Storing::Memory => Archiving::Memory,
    }
}

impl Engine {
    // Stores one text of a job in a run.
    fn store_text<D: Disk>(
        &mut self,
        alloc: Global,
        disk: &mut D,
        run: &mut Run,
        login: &str,
        ending: Ending,
        text: LiveText,
    ) -> Storing
        requires ready { RunIsReady D.seen D.may_leave disk.old self.old run.old }
        requires moment { ending.moment ≤ LAST_MOMENT }
        requires found { is_some (job_at self.old.state.jobs ending.job) ≡ true }
        ensures { IfSome (job_at self.old.state.jobs ending.job) (λ j. TextGoes D.seen D.may_leave D.moment D.left_since D.faults disk.old disk.new self.old self.new run.old run.new
            (text_of login.now (done_at ending.moment ending.cancelled j) text) result) }
    {
        lawful_is_showable();
        // so few that the number of each job has an identifier
        let _ = self.position();
        let Some(kept) = self.account.jobs().kept(ending.job) else {
            unreachable!()
        };
        let Ok(mut lines) = Lines::closed(alloc, login, kept, text, ending.cancelled, ending.moment)
        else {
            return Storing::Memory;
        };
        let mut sum = Md5::new();
        store(alloc, &mut self.log, disk, run, &mut lines, &mut sum)
    }

    // Stores the five texts of a job in a run, one after the other.
    fn store_texts<D: Disk>(
        &mut self,
        alloc: Global,
        disk: &mut D,
        run: &mut Run,
        login: &str,
        ending: Ending,
    ) -> Archiving
        requires ready { RunIsReady D.seen D.may_leave disk.old self.old run.old }
        requires moment { ending.moment ≤ LAST_MOMENT }
        requires found { is_some (job_at self.old.state.jobs ending.job) ≡ true }
        ensures { ArchiveGoes D.seen D.may_leave D.moment D.left_since D.faults disk.old disk.new self.old self.new run.old run.new login.now ending.job ending.cancelled ending.moment result }
    {
        let err = match self.store_text(alloc, disk, run, login, ending, LiveText::Err) {
            Storing::Stored(body) => body,
            other => return ended(&other),
        };
        let fail = match self.store_text(alloc, disk, run, login, ending, LiveText::Fail) {
            Storing::Stored(body) => body,
            other => return ended(&other),
        };
        let input = match self.store_text(alloc, disk, run, login, ending, LiveText::In) {
            Storing::Stored(body) => body,
            other => return ended(&other),
        };
        let status = match self.store_text(alloc, disk, run, login, ending, LiveText::Status) {
            Storing::Stored(body) => body,
            other => return ended(&other),
        };
        let out = match self.store_text(alloc, disk, run, login, ending, LiveText::Out) {
            Storing::Stored(body) => body,
            other => return ended(&other),
        };
        Archiving::Stored(Archive {
            err,
            fail,
            input,
            status,
            out,
        })
    }

    /// Stores the five texts of a job in a run, as it is once it is done so at a moment in seconds since 1970. Nothing of them counts
    /// before a command ends the run.
    pub fn store_archive<D: Disk>(
        &mut self,
        alloc: Global,
        disk: &mut D,
        run: &mut Run,
        login: &str,
        job: u64,
        cancelled: bool,
        moment: u64,
    ) -> Archiving
        requires ready { RunIsReady D.seen D.may_leave disk.old self.old run.old }
        requires moment { moment ≤ LAST_MOMENT }
        requires found { is_some (job_at self.old.state.jobs job) ≡ true }
        ensures { ArchiveGoes D.seen D.may_leave D.moment D.left_since D.faults disk.old disk.new self.old self.new run.old run.new login.now job cancelled moment result }
    {
        let ending = Ending {
            job,
            cancelled,
            moment,
        };
        self.store_texts(alloc, disk, run, login, ending)
    }
}

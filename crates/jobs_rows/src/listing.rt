//! Jobs that are taken from a list, in place of commands.
ghost use Rattle.std.specs.Prelude.{◌≡◌, true, None, IsSomeAnd};
ghost use Rattle.mt_model.specs.JobSteps.{input_refusal};
ghost use Rattle.mt_model.specs.Tasks.{is_running};
ghost use Rattle.mt_jobs.specs.Listed.{last_of};

use crate::account::Account;
use mt_base::Duplicate;
use mt_jobs::Jobs;
use mt_rows::Stop;
use mt_types::{Body, Job, MOST_COMMANDS, Sequence, TraceEntry};
use std::alloc::{AllocError, Global};
use std::marker::Model;

/// The jobs that were taken so far, of an account of so many commands.
#[derive(Drop)]
pub struct Listing {
    jobs: Jobs<Body>,
    count: u64,
}

impl Model for Listing {
    ghost use Rattle.std.specs.Prelude.{ℕ, ◌≤◌};
    ghost use Rattle.mt_types.specs.declared.limits.TheConstants.{MOST_COMMANDS};
    ghost use Rattle.mt_jobs.specs.Listed.{LawfulList};

    ghost Value = { ℕ };

    ghost view = { λ l. l.count };

    ghost invariant = { λ l. (l.count ≤ MOST_COMMANDS) × LawfulList l.count l.jobs };
}

/// The jobs after something of a list, and whether it was taken.
pub type Taken = Result<(Listing, bool), Stop>;

// Whether there is a last job, and it runs.
fn runs(jobs: &Jobs<Body>) -> bool
    ensures { result ≡ true → IsSomeAnd (last_of jobs.now) (λ j. is_running j ≡ true) }
{
    match jobs.last() {
        Some(job) => job.done.is_none(),
        None => false,
    }
}

// Whether the input of a job may end.
fn may_end(job: &Job<Body>) -> bool
    ensures { result ≡ true → input_refusal job.now ≡ None }
{
    if job.ended {
        return false;
    }
    job.done.is_none()
}

// Whether there is a last job, and its input may end.
fn is_open(jobs: &Jobs<Body>) -> bool
    ensures { result ≡ true → IsSomeAnd (last_of jobs.now) (λ j. input_refusal j ≡ None) }
{
    match jobs.last() {
        Some(job) => may_end(job),
        None => false,
    }
}

impl Listing {
    ghost use Rattle.mt_jobs.specs.Listed.{IsHead, IsWellMadeEntry};

    /// No job, of an account of so many commands.
    pub fn new(alloc: Global, count: u64) -> Result<Listing, Stop> {
        if count > MOST_COMMANDS {
            return Err(Stop::NoSuchRow);
        }
        let jobs = Jobs::new(alloc);
        let listing = Listing { jobs, count };
        Ok(listing)
    }

    pub fn jobs(&self) -> &Jobs<Body> {
        &self.jobs
    }

    /// Takes a job, with its inputs and missing lines.
    pub fn take(self, alloc: Global, job: Job<Body>) -> Taken
        requires { IsHead job }
    {
        let Listing { mut jobs, count } = self;
        let taken = jobs.take(alloc, count, job)?;
        let listing = Listing { jobs, count };
        Ok((listing, taken))
    }

    /// Takes that the input of the last job has ended.
    pub fn end(self, alloc: Global) -> Taken {
        if !is_open(&self.jobs) {
            return Ok((self, false));
        }
        let Listing { mut jobs, count } = self;
        jobs.take_end(alloc)?;
        let listing = Listing { jobs, count };
        Ok((listing, true))
    }

    /// Takes an entry of the last job.
    pub fn enter(self, alloc: Global, entry: TraceEntry<Body>) -> Taken
        requires { IsWellMadeEntry entry }
    {
        if !runs(&self.jobs) {
            return Ok((self, false));
        }
        let Listing { mut jobs, count } = self;
        let taken = jobs.take_entry(alloc, count, entry)?;
        let listing = Listing { jobs, count };
        Ok((listing, taken))
    }

    /// Takes how the last job was done.
    pub fn set_done(self, moment: u64, cancelled: bool) -> Taken {
        if !runs(&self.jobs) {
            return Ok((self, false));
        }
        let Listing { mut jobs, count } = self;
        let taken = jobs.take_done(moment, cancelled)?;
        let listing = Listing { jobs, count };
        Ok((listing, taken))
    }
}

impl Listing {
    ghost use Rattle.std.specs.Prelude.{ℕ, IfOk};
    ghost use Rattle.mt_types.specs.declared.body.Body.{Body};
    ghost use Rattle.mt_model.specs.Lawful.{LawfulJob};
    ghost use Rattle.mt_jobs.specs.Listed.{IsHead, IsWellMadeEntry};

    // The head of a job, with its inputs and missing lines.
    fn head_of(alloc: Global, job: &Job<Body>) -> Result<Job<Body>, AllocError>
        requires { (count : ℕ) × LawfulJob count job.now }
        ensures { IfOk result IsHead }
    {
        let document = job.document.copy(alloc)?;
        let assets = job.assets.copy(alloc)?;
        let inputs = job.inputs.copy(alloc)?;
        let missing = job.missing.copy(alloc)?;
        Ok(Job {
            number: job.number,
            document,
            assets,
            inputs,
            missing,
            ended: false,
            cancelled: false,
            created: job.created,
            done: None,
            trace: Sequence::new(alloc),
        })
    }

    // The entry at a place of the trace of a job.
    fn entry_at(alloc: Global, job: &Job<Body>, place: usize) -> Result<TraceEntry<Body>, Stop>
        requires { (count : ℕ) × LawfulJob count job.now }
        ensures { IfOk result IsWellMadeEntry }
    {
        match job.trace.as_slice().get(place) {
            Some(entry) => {
                let entry = entry.copy(alloc)?;
                Ok(entry)
            }
            None => Err(Stop::NoSuchRow),
        }
    }

    // Takes all entries of a trace, or those before the first that is refused.
    fn enter_all(self, alloc: Global, job: &Job<Body>) -> Taken
        requires { (count : ℕ) × LawfulJob count job.now }
    {
        let mut listing = self;
        for place in 0..job.trace.len() {
            let entry = Listing::entry_at(alloc, job, place)?;
            let (entered, taken) = listing.enter(alloc, entry)?;
            listing = entered;
            if !taken {
                return Ok((listing, false));
            }
        }
        Ok((listing, true))
    }

    // Takes the end of the input of a job, if it has ended.
    fn end_as(self, alloc: Global, ended: bool) -> Result<Listing, Stop> {
        if !ended {
            return Ok(self);
        }
        let (listing, _) = self.end(alloc)?;
        Ok(listing)
    }

    // Takes the end of the input of a job, its trace, and how it was done.
    fn take_rest(self, alloc: Global, job: &Job<Body>) -> Taken
        requires { (count : ℕ) × LawfulJob count job.now }
    {
        let listing = self.end_as(alloc, job.ended)?;
        let (listing, taken) = listing.enter_all(alloc, job)?;
        match job.done {
            Some(moment) if taken => listing.set_done(moment, job.cancelled),
            _ => Ok((listing, taken)),
        }
    }

    // Takes a job, part by part.
    fn take_job(self, alloc: Global, job: &Job<Body>) -> Taken
        requires { (count : ℕ) × LawfulJob count job.now }
    {
        let head = Listing::head_of(alloc, job)?;
        let (listing, taken) = self.take(alloc, head)?;
        if taken {
            listing.take_rest(alloc, job)
        } else {
            Ok((listing, false))
        }
    }

    // The jobs, and that at a place of an account: an error where it is refused.
    fn with_job(self, alloc: Global, account: &Account, place: usize) -> Result<Listing, Stop> {
        let Some(job) = account.job(place) else {
            return Ok(self);
        };
        match self.take_job(alloc, job)? {
            (listing, true) => Ok(listing),
            (_, false) => Err(Stop::NoSuchRow),
        }
    }

    /// The jobs of an account, each taken part by part: an error where one is refused.
    pub fn of(alloc: Global, account: &Account) -> Result<Listing, Stop> {
        let mut listing = Listing::new(alloc, account.position())?;
        for place in 0..account.jobs().len() {
            listing = listing.with_job(alloc, account, place)?;
        }
        Ok(listing)
    }
}

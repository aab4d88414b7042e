//! The jobs of an account, and a job by its number.
ghost use Rattle.std.specs.Prelude.{◌≡◌, []};
ghost use Rattle.std.specs.List.Sorted.{IsStrictlySortedBy};
ghost use Rattle.std.specs.Ordering.{nat_cmp};
ghost use Rattle.mt_jobs.specs.JobList.{IsFound, jobs_in, numbers_of};

use mt_feeds::FedJob;
use mt_sched::Sched;
use mt_types::Job;
use std::alloc::Global;
use std::collections::BTreeSet;
use std::marker::Model;

/// The jobs of an account, generic in what a body is. Contracts see them as a list, in the order in which they were made.
#[derive(Drop)]
pub struct Jobs<B> {
    pub(crate) jobs: Vec<FedJob<B>>,
    pub(crate) sched: Sched,
    pub(crate) running: BTreeSet<u64>,
    pub(crate) done: BTreeSet<u64>,
}

impl<B> Model for Jobs<B> {
    ghost use Rattle.std.specs.Prelude.{List};
    ghost use Rattle.mt_types.specs.declared.job.Job.{Job};
    ghost use Rattle.mt_jobs.specs.JobList.{IsJobs, jobs_in};

    ghost Value = { List (Job B) };

    ghost view = { λ s. jobs_in s.jobs.items };

    ghost invariant = { λ s. IsJobs s.jobs.items s.sched s.running.keys s.done.keys };
}

/// Where the job of a number stands, if there is one: a binary search.
pub(crate) fn find<B>(jobs: &[FedJob<B>], number: u64) -> Option<usize>
    requires { IsStrictlySortedBy nat_cmp (numbers_of (jobs_in jobs.now)) }
    ensures { IsFound number jobs.now result }
{
    match jobs.binary_search_by_key(&number, |kept| kept.job.number) {
        Ok(place) => Some(place),
        Err(_) => None,
    }
}

impl<B> Jobs<B> {
    ghost use Rattle.std.specs.Prelude.{◌≡◌, [], IfSome, length, option_copied, slice_get};
    ghost use Rattle.std.specs.Option.{option_map};
    ghost use Rattle.mt_model.specs.State.{job_at};
    ghost use Rattle.mt_feeds.specs.FedJob.{IsKept};

    /// No job.
    pub fn new(alloc: Global) -> Jobs<B>
        ensures { result ≡ [] }
    {
        Jobs {
            jobs: Vec::new(alloc),
            sched: Sched::new(alloc),
            running: BTreeSet::new(alloc),
            done: BTreeSet::new(alloc),
        }
    }

    /// The number of jobs.
    pub fn len(&self) -> usize
        ensures { result ≡ length self.now }
    {
        self.jobs.len()
    }

    /// The job at a place, in the order in which they were made.
    pub fn at(&self, place: usize) -> Option<&Job<B>>
        ensures { option_copied result ≡ slice_get self.now place }
    {
        match self.jobs.get(place) {
            Some(kept) => Some(&kept.job),
            None => None,
        }
    }

    /// The job of a number, with what is kept beside it: where its outputs stand, and the shares of its reducers. A binary search;
    /// takes no memory.
    pub fn kept(&self, number: u64) -> Option<&FedJob<B>>
        ensures job { option_map (λ k. k.job) (option_copied result) ≡ job_at self.now number }
        ensures kept { IfSome result (λ k. IsKept k.now) }
    {
        match find(&self.jobs, number) {
            Some(place) => Some(&self.jobs[place]),
            None => None,
        }
    }

    /// The job of a number, at the cost of a binary search. Takes no memory.
    pub fn get(&self, number: u64) -> Option<&Job<B>>
        ensures { option_copied result ≡ job_at self.now number }
    {
        match self.kept(number) {
            Some(kept) => Some(&kept.job),
            None => None,
        }
    }
}

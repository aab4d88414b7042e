//! The jobs that run, and those that are done, page by page.
ghost use Rattle.std.specs.Prelude.{◌≡◌, IfOk, nat_le, take};
ghost use Rattle.std.specs.List.{filter};

use crate::jobs::Jobs;
use mt_types::{Job, JobStand};
use std::alloc::{AllocError, Global};
use std::collections::BTreeSet;

// At most so many numbers of a set, from the first that is not below.
fn numbers_from(
    alloc: Global,
    numbers: &BTreeSet<u64>,
    from: u64,
    limit: usize,
) -> Result<Vec<u64>, AllocError>
    ensures { IfOk result (λ v. v.items ≡ take limit (filter (λ k. nat_le from k) numbers.now.keys)) }
{
    numbers.range(from..).take(limit).copied().collect(alloc)
}

impl<B> Jobs<B> {
    ghost use Rattle.std.specs.Prelude.{◌≡◌, IfOk, length, map};
    ghost use Rattle.mt_jobs.specs.JobList.{numbers_of};
    ghost use Rattle.mt_jobs.specs.Pages.{page_of, standing};

    // The numbers of the jobs that stand so.
    fn numbers(&self, stand: JobStand) -> &BTreeSet<u64>
        ensures { result.now.keys ≡ numbers_of (standing stand self.now) }
    {
        match stand {
            JobStand::Running => &self.running,
            JobStand::Done => &self.done,
        }
    }

    /// The number of jobs that stand so. Takes no memory, and walks over nothing.
    pub fn count(&self, stand: JobStand) -> usize
        ensures { result ≡ length (standing stand self.now) }
    {
        self.numbers(stand).len()
    }

    /// At most `limit` of the jobs that stand so, in the order in which they were made, from the first whose number is not below. It
    /// costs a binary search for each.
    pub fn page<'a>(
        &'a self,
        alloc: Global,
        stand: JobStand,
        from: u64,
        limit: usize,
    ) -> Result<Vec<&'a Job<B>>, AllocError>
        ensures { IfOk result (λ page. map (λ j. j.now) page.items ≡ page_of stand from limit self.now) }
    {
        let _ = &self.jobs;
        let numbers = numbers_from(alloc, self.numbers(stand), from, limit)?;
        let mut page = Vec::new(alloc);
        for number in &numbers {
            if let Some(job) = self.get(*number) {
                page.push(job)?;
            }
        }
        Ok(page)
    }
}

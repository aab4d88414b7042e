//! What a task reads.
ghost use Rattle.std.specs.Prelude.{◌≡◌, length, slice_get};
ghost use Rattle.std.specs.Option.{option_and_then, option_map_or};

use crate::kept::FedJob;
use mt_types::{Item, PhaseKind};

// The place of one of the items that a reducer reads, counted from 0.
fn place_in(shares: &[Vec<usize>], reducer: u64, k: usize) -> Option<usize>
    ensures { result ≡ option_and_then (λ l. slice_get l.items k) (slice_get shares.now reducer) }
{
    match shares.get(reducer as usize) {
        Some(places) => places.get(k).copied(),
        None => None,
    }
}

// The number of places that a reducer reads.
fn count_in(shares: &[Vec<usize>], reducer: u64) -> usize
    ensures { result ≡ option_map_or (λ l. length l.items) (slice_get shares.now reducer) 0 }
{
    match shares.get(reducer as usize) {
        Some(places) => places.len(),
        None => 0,
    }
}

impl<B> FedJob<B> {
    ghost use Rattle.std.specs.Prelude.{◌≡◌, true, length, option_copied};
    ghost use Rattle.mt_model.specs.Tasks.{is_ready};
    ghost use Rattle.mt_feeds.specs.FedJob.{IsKept};
    ghost use Rattle.mt_feeds.specs.Reading.{read_of, task_items};

    /// One of the items that a ready task reads, counted from 0, by look-ups; none from their number on.
    pub fn read(&self, phase: u32, place: u64, k: usize) -> Option<&Item<B>>
        requires kept { IsKept self.now }
        requires ready { is_ready self.now.job phase place ≡ true }
        ensures { option_copied result ≡ read_of phase place k self.now.job }
    {
        let Some(of_phase) = self.job.document.phases.as_slice().get(phase as usize) else {
            return None;
        };
        match of_phase.kind {
            PhaseKind::Map => {
                if k == 0 {
                    self.item(phase, place)
                } else {
                    None
                }
            }
            PhaseKind::Reduce { count: _ } => match place_in(
                &self.shares[phase as usize],
                place,
                k,
            ) {
                Some(found) => self.item(phase, found as u64),
                None => None,
            },
        }
    }

    /// The number of items that a ready task reads, by a look-up.
    pub fn read_count(&self, phase: u32, place: u64) -> usize
        requires kept { IsKept self.now }
        requires ready { is_ready self.now.job phase place ≡ true }
        ensures { result ≡ length (task_items phase place self.now.job) }
    {
        let Some(of_phase) = self.job.document.phases.as_slice().get(phase as usize) else {
            return 0;
        };
        match of_phase.kind {
            PhaseKind::Map => 1,
            PhaseKind::Reduce { count: _ } => count_in(&self.shares[phase as usize], place),
        }
    }
}

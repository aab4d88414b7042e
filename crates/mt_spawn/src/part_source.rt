//! A part of what an ended child wrote, as a source.
use crate::{Part, Spawner};
use mt_edge::{ReadStep, Source};

/// The bytes of a part of what a spawner holds, from a place up to another.
#[derive(Drop)]
pub struct PartSource<'a, P> {
    spawner: &'a mut P,
    part: Part,
    at: u64,
    end: u64,
}

impl<'a, P: Spawner> PartSource<'a, P> {
    ghost use Rattle.std.specs.Prelude.{◌≡◌, ◌-◌};

    /// The bytes of the part from `at` up to `end`; none where the one isn't below the other.
    pub fn new(spawner: &'a mut P, part: Part, at: u64, end: u64) -> PartSource<'a, P>
        ensures spawner { result.spawner ≡ spawner.entry }
        ensures part { result.part ≡ part }
        ensures at { result.at ≡ at }
        ensures end { result.end ≡ end }
    {
        PartSource {
            spawner,
            part,
            at,
            end,
        }
    }

    /// How many bytes are still to be read.
    pub fn len(&self) -> u64
        ensures { result ≡ self.now.end - self.now.at }
    {
        self.end.saturating_sub(self.at)
    }
}

impl<P: Spawner> Source for PartSource<'_, P> {
    ghost use Rattle.std.specs.Prelude.{◌≡◌, refl};
    ghost use Rattle.std.proofs.Common.{◌∙◌};
    ghost use Rattle.mt_spawn.specs.Children.{SameLive};
    ghost use Rattle.mt_spawn.specs.Parts.{told_between};

    // What is left of the part, where the spawner tells what is held.
    ghost left = { λ s. told_between (P.told s.spawner.now) s.part s.at s.end };

    // The spawner's.
    ghost read_faults = { λ s. (P.seen s.spawner.now).faults };

    // The same spawner with its children and counts, what it holds and what it gives.
    ghost source_stays = { λ a b. (b.spawner.ghost_name ≡ a.spawner.ghost_name) × SameLive (P.seen a.spawner.now) (P.seen b.spawner.now)
        × (P.held b.spawner.now ≡ P.held a.spawner.now) × (P.told b.spawner.now ≡ P.told a.spawner.now) × (P.rule b.spawner.now ≡ P.rule a.spawner.now) };

    fn read(&mut self, into: &mut [u8]) -> ReadStep {
        let left = self.len();
        if left == 0 {
            return ReadStep::End;
        }
        let most = into.len().min(left as usize);
        match self.spawner.read(self.part, self.at, &mut into[..most]) {
            ReadStep::Took(count) => {
                self.at += count as u64;
                ReadStep::Took(count)
            }
            ReadStep::End => ReadStep::End,
            ReadStep::Failed => ReadStep::Failed,
        }
    }

    ghost source_same = { λ a. (refl, record { live = refl; counts = record { waits = refl; company = refl } }, refl, refl, refl) };

    ghost source_joined = { λ a b c h k. (
      k.0 ∙ h.0,
      record { live = k.1.live ∙ h.1.live; counts = record { waits = k.1.counts.waits ∙ h.1.counts.waits; company = k.1.counts.company ∙ h.1.counts.company } },
      k.2 ∙ h.2,
      k.3 ∙ h.3,
      k.4 ∙ h.4,
    ) };
}

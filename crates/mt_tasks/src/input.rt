//! The bytes that a task reads, as a source.
ghost use Rattle.mt_tasks.specs.Reading.{IsPlace, ReadsTask, bodies_of_task};

use crate::bodies::{Place, next_body};
use mt_disk::Disk;
use mt_edge::{ReadStep, Source};
use mt_engine::Engine;
use mt_types::Task;

/// What a ready task reads, and then its assets, one behind another. A read gives bytes of one body, at one call of the disk.
#[derive(Drop)]
pub(crate) struct TaskInput<'a, D: Disk> {
    engine: &'a Engine,
    disk: &'a mut D,
    task: Task,
    count: usize,
    place: Place,
    ghost reads: { ReadsTask D.seen disk.now engine.now task count },
    ghost within: { IsPlace (bodies_of_task engine.now.state.jobs task) place },
}

impl<'a, D: Disk> TaskInput<'a, D> {
    ghost use Rattle.std.specs.Prelude.{◌≡◌};
    ghost use Rattle.mt_tasks.specs.Reading.{ReadsTask, first_place};

    /// All of it, of so many bodies.
    pub(crate) fn new(
        engine: &'a Engine,
        disk: &'a mut D,
        task: Task,
        count: usize,
    ) -> TaskInput<'a, D>
        requires { ReadsTask D.seen disk.old engine.now task count }
        ensures engine { result.engine ≡ engine.entry }
        ensures disk { result.disk ≡ disk.entry }
        ensures task { result.task ≡ task }
        ensures place { result.place ≡ first_place }
    {
        TaskInput {
            engine,
            disk,
            task,
            count,
            place: Place { next: 0, at: 0 },
        }
    }
}

impl<'a, D: Disk> Source for TaskInput<'a, D> {
    ghost use Rattle.std.specs.Prelude.{◌≡◌, refl};
    ghost use Rattle.std.proofs.Common.{◌∙◌};
    ghost use Rattle.mt_disk.specs.CrashModel.{OnlyRead};
    ghost use Rattle.mt_disk.proofs.Readings.{reads_none, reads_on};
    ghost use Rattle.mt_tasks.specs.Reading.{input_left};

    ghost left = { λ s. input_left (D.seen s.disk.now) s.engine.now s.task s.place };

    // The disk's.
    ghost read_faults = { λ s. D.faults s.disk.now };

    // The same disk, of which nothing was written, and the same engine and task.
    ghost source_stays = { λ a b. (b.disk.ghost_name ≡ a.disk.ghost_name) × OnlyRead D.seen D.may_leave D.moment D.left_since a.disk.now b.disk.now × D.stays a.disk.now b.disk.now };

    fn read(&mut self, into: &mut [u8]) -> ReadStep {
        let (place, next) = next_body(self.engine, &self.task, self.count, self.place);
        self.place = place;
        let Some(body) = next else {
            return ReadStep::End;
        };
        let count = (into.len() as u64).min(body.size() - place.at);
        match self
            .engine
            .read_body(self.disk, body, place.at, &mut into[..count as usize])
        {
            Ok(()) => {
                self.place.at += count;
                ReadStep::Took(count as usize)
            }
            Err(_) => ReadStep::Failed,
        }
    }

    ghost source_same = { λ a. (refl, reads_none D.seen D.may_leave D.moment D.left_since a.disk.now, D.same a.disk.now) };

    ghost source_joined = { λ a b c h k. (k.0 ∙ h.0, reads_on D.seen D.may_leave D.moment D.left_since a.disk.now b.disk.now c.disk.now h.1 k.1, D.joined a.disk.now b.disk.now c.disk.now h.2 k.2) };
}

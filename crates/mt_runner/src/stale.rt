//! Children that are let go: those whose tasks aren't ready any more, and at the end all.
ghost use Rattle.std.specs.Prelude.{◌≡◌, [], eqb, filter, map};
ghost use Rattle.std.specs.List.{IsDistinct};
ghost use Rattle.mt_base.specs.Counts.{NeverFell};
ghost use Rattle.mt_records.specs.Fate.{fate};
ghost use Rattle.mt_spawn.specs.Children.{SameCounts};
ghost use Rattle.mt_runner.specs.Attempts.{AreOf, ArePaired, attempts, number_of};
ghost use Rattle.mt_runner.specs.Attends.{ready_of};
ghost use Rattle.mt_runner.specs.Living.{LosesAll};
ghost use Rattle.mt_runner.specs.Stale.{FirstKept, FirstStale, is_other_child};

use crate::runner::{Runner, Started};
use mt_engine::Engine;
use mt_spawn::{Spawner, Ticket};

impl Runner {
    // Keeps this child no longer.
    pub(crate) fn forget(&mut self, ticket: Ticket)
        ensures kept { self.new.kept ≡ filter (is_other_child ticket.number) self.old.kept }
        ensures slots { self.new.slots ≡ self.old.slots }
        ensures login { self.new.login ≡ self.old.login }
    {
        let number = ticket.number;
        self.kept
            .retain(|started: &Started| started.ticket.number != number);
    }

    // The first child whose task is not ready.
    fn first_stale(&self, engine: &Engine) -> Option<Ticket>
        ensures first { FirstStale engine.now.state self.now.kept result }
        ensures tickets { IsDistinct eqb (map number_of self.now.kept) }
    {
        for started in &self.kept {
            if !engine.jobs().is_ready(&started.task) {
                return Some(started.ticket);
            }
        }
        None
    }

    // Ends the children whose tasks aren't ready any more.
    pub(crate) fn drop_stale<P: Spawner>(&mut self, engine: &Engine, spawner: &mut P)
        requires paired { ArePaired self.old.kept (P.seen spawner.old).live }
        ensures left { AreOf self.new.kept (P.seen spawner.new).live
            (ready_of engine.now.state (attempts self.old.kept (P.seen spawner.old).live)) }
        ensures counts { SameCounts (P.seen spawner.old) (P.seen spawner.new) }
        ensures faults { NeverFell (P.seen spawner.old).faults (P.seen spawner.new).faults }
        ensures held { P.held spawner.new ≡ P.held spawner.old }
        ensures rule { P.rule spawner.new ≡ P.rule spawner.old }
        ensures slots { self.new.slots ≡ self.old.slots }
        ensures login { self.new.login ≡ self.old.login }
    {
        while let Some(stale) = self.first_stale(engine) {
            spawner.kill(stale);
            self.forget(stale);
        }
    }

    // One of the children.
    fn first_kept(&self) -> Option<Started>
        ensures { FirstKept self.now.kept result }
    {
        self.kept.first().copied()
    }

    /// Ends all children. What is held stays held.
    pub fn stop<P: Spawner>(&mut self, spawner: &mut P)
        requires paired { ArePaired self.old.kept (P.seen spawner.old).live }
        ensures none { (P.seen spawner.new).live ≡ [] }
        // In each world each of them is lost.
        ensures lives { LosesAll self.old.login (P.gives (P.rule spawner.old)) (fate self.old.login) self.old.kept self.new.kept }
        ensures kept { self.new.kept ≡ [] }
        ensures counts { SameCounts (P.seen spawner.old) (P.seen spawner.new) }
        ensures faults { NeverFell (P.seen spawner.old).faults (P.seen spawner.new).faults }
        ensures held { P.held spawner.new ≡ P.held spawner.old }
        ensures rule { P.rule spawner.new ≡ P.rule spawner.old }
        ensures slots { self.new.slots ≡ self.old.slots }
        ensures login { self.new.login ≡ self.old.login }
    {
        while let Some(started) = self.first_kept() {
            spawner.kill(started.ticket);
            self.forget(started.ticket);
        }
    }
}

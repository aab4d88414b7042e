//! What runs children.
use crate::{Begun, Order, Part, Ticket, Waited};
use mt_edge::{ReadStep, Source};
use std::alloc::Global;

/// Children that run beside each other. What one wrote is held once it has ended, read in parts, and let go. No call touches a child
/// but those that its answer names, and a call that ends out of memory adds none.
pub trait Spawner {
    ghost use Rattle.std.specs.Prelude.{◌≡◌, ◌<◌, ℕ, List, true, Option, Some, None, length};
    ghost use Rattle.mt_base.specs.Counts.{NeverFell, Rose};
    ghost use Rattle.mt_types.specs.declared.task.Run.{Run};
    ghost use Rattle.mt_types.specs.declared.task.Raw.{Raw};
    ghost use Rattle.mt_spawn.specs.Children.{Begins, Loses, SameLive, Seen, Waits, lives};
    ghost use Rattle.mt_spawn.specs.Orders.{input_from, told_of, run_from};
    ghost use Rattle.mt_spawn.specs.Parts.{ReadsPart, size_in, told_part};
    ghost use Rattle.mt_spawn.specs.declared.task.Begun.{Begun};
    ghost use Rattle.mt_spawn.specs.declared.task.Left.{Left};

    /// What decides which outcome a run may give: no call changes it.
    ghost Rule: { Type 0 };

    /// What decides which outcome a live child may end in: no call changes it while the child lives.
    ghost Fate: { Type 0 };

    ghost rule: { Self → Rule };

    /// The live children, and the counts.
    ghost seen: { Self → Seen Fate };

    /// What is told of the ended child that is held.
    ghost held: { Self → Option Left };

    /// Its outcome with all that it wrote, where the spawner tells it.
    ghost told: { Self → Option Raw };

    /// The outcomes that a run may give on an input.
    ghost gives: { Rule → Run → List ℕ → Raw → Type 0 };

    /// The outcomes that a live child may end in.
    ghost may: { Rule → Fate → Raw → Type 0 };

    /// Starts a task on a source of its input and then of its assets, one behind another, which is read to its end.
    fn start<S: Source>(&mut self, alloc: Global, order: &Order, bytes: &mut S) -> Begun
        requires free { held self.old ≡ None }
        ensures start { Begins (may (rule self.old)) (λ all raw. gives (rule self.old) (run_from order.now all) (input_from order.now all) raw)
            (S.left bytes.old) (S.left bytes.new) (seen self.old) result (seen self.new) }
        ensures input { result ≡ Begun.InputFailed → Rose (S.read_faults bytes.old) (S.read_faults bytes.new) }
        ensures reads { NeverFell (S.read_faults bytes.old) (S.read_faults bytes.new) }
        ensures stays { S.source_stays bytes.old bytes.new }
        ensures free { held self.new ≡ None }
        ensures rule { rule self.new ≡ rule self.old };

    /// Waits for a child to end, whichever it is, and holds what it left. A patient wait lasts as long as the spawner likes; any other
    /// only looks whether one has ended.
    fn wait(&mut self, alloc: Global, patient: bool) -> Waited
        requires some { 0 < length (seen self.old).live }
        requires free { held self.old ≡ None }
        ensures wait { Waits (may (rule self.old)) (seen self.old) result (held self.new) (told self.new) (seen self.new) }
        ensures rule { rule self.new ≡ rule self.old };

    /// Reads from a part of what is held, from a place on, into a piece that is not empty.
    fn read(&mut self, part: Part, at: u64, into: &mut [u8]) -> ReadStep
        requires piece { 0 < length into.old }
        ensures read { ReadsPart (told_part (told self.old) part) (size_in (held self.old) part) at (seen self.old).faults into.new result (seen self.new).faults }
        ensures same { SameLive (seen self.old) (seen self.new) }
        ensures held { held self.new ≡ held self.old }
        ensures told { told self.new ≡ told self.old }
        ensures rule { rule self.new ≡ rule self.old };

    /// Lets go what is held, if anything is.
    fn release(&mut self)
        ensures same { SameLive (seen self.old) (seen self.new) }
        ensures faults { NeverFell (seen self.old).faults (seen self.new).faults }
        ensures free { held self.new ≡ None }
        ensures rule { rule self.new ≡ rule self.old };

    /// Ends a live child. It takes no memory.
    fn kill(&mut self, ticket: Ticket)
        requires lives { lives ticket.number (seen self.old).live ≡ true }
        ensures kill { Loses ticket.number (seen self.old) (seen self.new) }
        ensures faults { NeverFell (seen self.old).faults (seen self.new).faults }
        ensures held { held self.new ≡ held self.old }
        ensures told { told self.new ≡ told self.old }
        ensures rule { rule self.new ≡ rule self.old };

    /// What is told is of what is held.
    ghost told_is_held: { (s : Self) (raw : Raw) → told s ≡ Some raw → held s ≡ Some (told_of raw) };
}

//! What children in memory do.
use crate::Order;
use mt_types::Raw;
use std::alloc::{AllocError, Global};

/// A function from what a child is run with, and a truth value, to what it ends in.
pub trait Work {
    ghost use Rattle.std.specs.Prelude.{◌≡◌, ℕ, List, Bool, IfOk};
    ghost use Rattle.mt_types.specs.declared.task.Run.{Run};
    ghost use Rattle.mt_types.specs.declared.task.Raw.{Raw};
    ghost use Rattle.mt_spawn.specs.Memory.{outcome_of};

    /// What it gives for a run, its input and the truth value.
    ghost raw_of: { Self → Run → List ℕ → Bool → Raw };

    /// What a child ends in that was started by this order with these bytes: its input, and then its assets.
    fn work(
        &self,
        alloc: Global,
        order: &Order,
        bytes: &[u8],
        otherwise: bool,
    ) -> Result<Raw, AllocError>
        ensures { IfOk result (λ raw. raw ≡ outcome_of (raw_of self.now) order.now bytes.now otherwise) };
}

//! Why a document is refused.

use std::alloc::{AllocError, AllocFailed};

/// Why bytes are no job document. The causes are looked for in this order, and phases in theirs: the first phase with a
/// fault is told, and of it `BadPhase` before `BadCount`.
#[derive(Clone, Copy, Debug, PartialEq, Eq)]
pub enum InvalidJob {
    /// They are no JSON object.
    NotJson,
    /// `phases` is missing, no list, or empty.
    NoPhases,
    /// There are more than 16 phases.
    TooManyPhases,
    /// The phase of this number, counted from 0, is no object, or its type, command lines or assets are not as they must be.
    BadPhase(u64),
    /// The reducers of the phase of this number, counted from 0, are not a whole number of 1 to 1,024.
    BadCount(u64),
    /// Memory was wanting.
    Memory,
}

impl From<AllocError> for InvalidJob {
    ghost use Rattle.std.specs.Prelude.{◌≡◌};
    ghost use Rattle.mt_jobdoc.specs.declared.error.InvalidJob.TheVariants.{Memory};

    ghost from_gives = { λ _ e. e ≡ Memory };

    fn from(_error: AllocError) -> InvalidJob {
        InvalidJob::Memory
    }
}

impl<T: Drop> From<AllocFailed<T>> for InvalidJob {
    ghost use Rattle.std.specs.Prelude.{◌≡◌};
    ghost use Rattle.mt_jobdoc.specs.declared.error.InvalidJob.TheVariants.{Memory};

    ghost from_gives = { λ _ e. e ≡ Memory };

    fn from(_error: AllocFailed<T>) -> InvalidJob {
        InvalidJob::Memory
    }
}

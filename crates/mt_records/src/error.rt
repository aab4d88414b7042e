//! Why bytes are no record.
use mt_bytes::Short;
use std::alloc::{AllocError, AllocFailed};

/// Why bytes are no record. The causes are looked for in this order.
#[derive(Clone, Copy, Debug, PartialEq, Eq)]
pub enum RecordError {
    /// There are fewer than 13 bytes, or they do not end in the end of a body that they have room for.
    Torn,
    /// What stands before the body is not exactly one head, or it is one that has no body.
    Malformed,
    /// Out of memory.
    Memory,
}

impl From<Short> for RecordError {
    ghost use Rattle.std.specs.Prelude.{◌≡◌};
    ghost use Rattle.mt_records.specs.declared.error.RecordError.TheVariants.{Malformed};

    ghost from_gives = { λ _ e. e ≡ Malformed };

    fn from(_short: Short) -> RecordError {
        RecordError::Malformed
    }
}

impl From<AllocError> for RecordError {
    ghost use Rattle.std.specs.Prelude.{◌≡◌};
    ghost use Rattle.mt_records.specs.declared.error.RecordError.TheVariants.{Memory};

    ghost from_gives = { λ _ e. e ≡ Memory };

    fn from(_error: AllocError) -> RecordError {
        RecordError::Memory
    }
}

impl<T: Drop> From<AllocFailed<T>> for RecordError {
    ghost use Rattle.std.specs.Prelude.{◌≡◌};
    ghost use Rattle.mt_records.specs.declared.error.RecordError.TheVariants.{Memory};

    ghost from_gives = { λ _ e. e ≡ Memory };

    fn from(_error: AllocFailed<T>) -> RecordError {
        RecordError::Memory
    }
}

//! Why bytes are no command.

use mt_bytes::Short;
use std::alloc::{AllocError, AllocFailed};

/// Why bytes were not decoded.
#[derive(Clone, Copy, Debug, PartialEq, Eq)]
pub enum DecodeError {
    /// No command is spelled so.
    NotACommand,
    /// Out of memory.
    Memory,
}

impl From<Short> for DecodeError {
    ghost use Rattle.std.specs.Prelude.{◌≡◌};
    ghost use Rattle.mt_codec.specs.declared.error.DecodeError.TheVariants.{NotACommand};

    ghost from_gives = { λ _ e. e ≡ NotACommand };

    fn from(_short: Short) -> DecodeError {
        DecodeError::NotACommand
    }
}

impl From<AllocError> for DecodeError {
    ghost use Rattle.std.specs.Prelude.{◌≡◌};
    ghost use Rattle.mt_codec.specs.declared.error.DecodeError.TheVariants.{Memory};

    ghost from_gives = { λ _ e. e ≡ Memory };

    fn from(_error: AllocError) -> DecodeError {
        DecodeError::Memory
    }
}

impl<T: Drop> From<AllocFailed<T>> for DecodeError {
    ghost use Rattle.std.specs.Prelude.{◌≡◌};
    ghost use Rattle.mt_codec.specs.declared.error.DecodeError.TheVariants.{Memory};

    ghost from_gives = { λ _ e. e ≡ Memory };

    fn from(_error: AllocFailed<T>) -> DecodeError {
        DecodeError::Memory
    }
}

//! Why a name is no path.

use std::alloc::{AllocError, AllocFailed};

/// Why a name is no path of this account. The causes are looked for in this order.
#[derive(Clone, Copy, Debug, PartialEq, Eq)]
pub enum PathError {
    /// It doesn't begin with a slash, nor in a text with `~~/`, or no piece stands between its slashes.
    Empty,
    /// The pieces behind the first, each with its slash, have more than 1,024 bytes.
    TooLong,
    /// A piece behind the second is no component.
    BadComponent,
    /// The first piece isn't the login.
    OtherLogin,
    /// The second piece is missing, or no area.
    NoArea,
    /// Out of memory.
    Memory,
}

impl From<AllocError> for PathError {
    ghost use Rattle.std.specs.Prelude.{◌≡◌};
    ghost use Rattle.mt_path.specs.declared.error.PathError.TheVariants.{Memory};

    ghost from_gives = { λ _ e. e ≡ Memory };

    fn from(_error: AllocError) -> PathError {
        PathError::Memory
    }
}

impl<T: Drop> From<AllocFailed<T>> for PathError {
    ghost use Rattle.std.specs.Prelude.{◌≡◌};
    ghost use Rattle.mt_path.specs.declared.error.PathError.TheVariants.{Memory};

    ghost from_gives = { λ _ e. e ≡ Memory };

    fn from(_error: AllocFailed<T>) -> PathError {
        PathError::Memory
    }
}

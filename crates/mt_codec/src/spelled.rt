//! Values that stand in lists, read and written one after the other.
ghost use Rattle.std.specs.Prelude.{◌≡◌, ◌++◌, OnOk};
ghost use Rattle.std.specs.List.{flat_map, AllByRecursion};
ghost use Rattle.mt_codec.specs.Reading.{Gives, times};

use crate::error::DecodeError;
use mt_base::Sequence;
use mt_bytes::Cursor;
use std::alloc::{AllocError, Global};

/// A value with a spelling.
pub trait Spelled: Drop {
    ghost use Rattle.std.specs.Prelude.{List, ℕ, Option};

    /// The value at the front of bytes, and the bytes behind it.
    ghost read_at: { List ℕ → Option (Self × List ℕ) };

    /// How the value is spelled.
    ghost spelling: { Self → List ℕ };

    /// What the value keeps where it has a spelling.
    ghost fits: { Self → Type 0 };

    /// Reads the value at the front.
    fn read(alloc: Global, cursor: &mut Cursor) -> Result<Self, DecodeError>
        ensures { Gives result cursor.new (read_at cursor.old) };

    /// Writes the value at the end.
    fn write(&self, out: &mut Vec<u8>) -> Result<(), AllocError>
        requires { fits self.now }
        ensures { OnOk result (out.new.items ≡ out.old.items ++ spelling self.now) };
}

/// So many values.
pub fn times<T: Spelled>(
    alloc: Global,
    n: usize,
    cursor: &mut Cursor,
) -> Result<Sequence<T>, DecodeError>
    ensures { Gives result cursor.new (times T.read_at n cursor.old) }
{
    let mut items = Sequence::new(alloc);
    for _ in 0..n {
        items.push(T::read(alloc, cursor)?)?;
    }
    Ok(items)
}

/// All of the values.
pub fn put_all<T: Spelled>(out: &mut Vec<u8>, items: &[T]) -> Result<(), AllocError>
    requires { AllByRecursion T.fits items.now }
    ensures { OnOk result (out.new.items ≡ out.old.items ++ flat_map T.spelling items.now) }
{
    for item in items {
        item.write(out)?;
    }
    Ok(())
}

//! What is told of an outcome before what was written is read.
ghost use Rattle.std.specs.Prelude.{◌≡◌, IfOk, map};
ghost use Rattle.mt_spawn.specs.Orders.{told_of, size_of, sizes_of};

use crate::{FileSize, Left, Sizes};
use mt_base::{Duplicate, Sequence};
use mt_types::{Made, Raw, RecordFile};
use std::alloc::{AllocError, Global};

// The numbers and sizes of files.
fn file_sizes(alloc: Global, files: &[RecordFile]) -> Result<Sequence<FileSize>, AllocError>
    ensures { IfOk result (λ sizes. sizes ≡ map size_of files.now) }
{
    let mut sizes = Vec::with_capacity(alloc, files.len())?;
    for file in files {
        sizes.push(FileSize {
            number: file.number,
            len: file.bytes.len() as u64,
        })?;
    }
    Ok(Sequence::from_vec(sizes))
}

// How much was made.
fn sizes_of(alloc: Global, made: &Made) -> Result<Sizes, AllocError>
    ensures { IfOk result (λ sizes. sizes ≡ sizes_of made.now) }
{
    match made {
        Made::Whole { out, files } => Ok(Sizes::Whole {
            out: out.len() as u64,
            files: file_sizes(alloc, files.as_slice())?,
        }),
        Made::TooLarge { total } => Ok(Sizes::TooLarge { total: *total }),
    }
}

/// What is told of an outcome before its bytes are read.
pub fn told_of(alloc: Global, raw: &Raw) -> Result<Left, AllocError>
    ensures { IfOk result (λ left. left ≡ told_of raw.now) }
{
    Ok(Left {
        status: raw.status,
        stderr: raw.stderr.copy(alloc)?,
        made: sizes_of(alloc, &raw.made)?,
    })
}

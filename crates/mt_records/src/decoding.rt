//! Whole records, from the bytes of a file.
ghost use Rattle.std.specs.Prelude.{◌≡◌};
ghost use Rattle.mt_records.specs.Records.{IsUnlessMemory, decoded};
ghost use Rattle.mt_records.specs.Windows.{last_of};

use crate::error::RecordError;
use crate::limits::END_LEN;
use crate::reading::{body_len, head_before};
use crate::record::RawRecord;
use mt_base::Bytes;
use std::alloc::Global;

// The last 12 bytes, or all where there are fewer.
fn end_in(bytes: &[u8]) -> &[u8]
    ensures { result.now ≡ last_of END_LEN bytes.now }
{
    &bytes[bytes.len().saturating_sub(END_LEN)..]
}

/// The record that bytes are, each of them. Its texts are as they stand, and may name no path.
pub fn decode(alloc: Global, bytes: &[u8]) -> Result<RawRecord<Bytes>, RecordError>
    ensures { IsUnlessMemory (decoded bytes.now) result }
{
    let Some(len) = body_len(end_in(bytes), bytes.len() as u64) else {
        return Err(RecordError::Torn);
    };
    let from = bytes.len() - END_LEN - len as usize;
    let head = head_before(alloc, from as u64, len, bytes)?;
    let body = Bytes::from_slice(alloc, &bytes[from..from + len as usize])?;
    Ok(RawRecord { head, body })
}

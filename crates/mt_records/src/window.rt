//! The record that the front and the end of a file show.
ghost use Rattle.std.specs.Prelude.{◌≡◌, IfOk};
ghost use Rattle.mt_records.specs.Seen.{range_record};

use crate::error::RecordError;
use crate::limits::END_LEN;
use crate::range::Range;
use crate::reading::{body_len, head_before};
use crate::record::RawRecord;
use mt_spawn::Part;
use std::alloc::{AllocError, Global};

/// The record of the file at a place, of `len` bytes, by its front and its end; none where it is none.
#[tactic(auto, unfolding(crate::specs::Windows::record_with))]
pub(crate) fn range_record(
    alloc: Global,
    index: u64,
    len: u64,
    front: &[u8],
    end: &[u8],
) -> Result<Option<RawRecord<Range>>, AllocError>
    ensures { IfOk result (λ r. r ≡ range_record index (record { len = len; front = front.now; end = end.now })) }
{
    let Some(count) = body_len(end, len) else {
        return Ok(None);
    };
    let from = len - END_LEN as u64 - count;
    match head_before(alloc, from, count, front) {
        Ok(head) => Ok(Some(RawRecord {
            head,
            body: Range {
                part: Part::File { index },
                from,
                len: count,
            },
        })),
        Err(RecordError::Memory) => Err(AllocError),
        Err(_) => Ok(None),
    }
}

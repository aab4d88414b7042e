//! The line before a chunk (RFC 9112, section 7.1).
ghost use Rattle.std.specs.Prelude.{◌≡◌};
ghost use Rattle.mt_http.specs.Chunk.{chunk_line_size};

use httparse::{Status, parse_chunk_size};

/// The size that a line tells, if it is, from its first byte to its last, one chunk line.
pub(crate) fn read_chunk_line(line: &[u8]) -> Option<u64>
    ensures { result ≡ chunk_line_size line.now }
{
    match parse_chunk_size(line) {
        Ok(Status::Complete(found)) => {
            let (len, size) = found;
            if len == line.len() { Some(size) } else { None }
        }
        Ok(Status::Partial) => None,
        Err(_) => None,
    }
}

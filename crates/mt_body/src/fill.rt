//! Reading the next piece of a body from a source.
ghost use Rattle.std.specs.Prelude.{◌≡◌, length};
ghost use Rattle.mt_body.specs.Filling.{Fills, FillsPiece};

use md5::{Digest, Md5};
use mt_edge::{ReadStep, Source};

/// Why no more was read.
#[derive(Clone, Copy)]
pub(crate) enum End {
    /// There was no more room.
    Whole,
    /// Nothing is left.
    Ended,
    /// The source has failed.
    Failed,
}

/// How many bytes were read, and why no more.
#[derive(Clone, Copy)]
pub(crate) struct Filled {
    pub(crate) count: usize,
    pub(crate) end: End,
}

// Reads until the buffer is full, or the source ends or fails.
fn fill_piece<S: Source>(source: &mut S, into: &mut [u8]) -> Filled
    ensures filled { Fills result into.new (S.left source.old) (S.left source.new) (S.read_faults source.old) (S.read_faults source.new) }
    ensures stays { S.source_stays source.old source.new }
{
    let mut done = 0;
    while done < into.len() {
        match source.read(&mut into[done..]) {
            ReadStep::Took(count) => done += count,
            ReadStep::End => {
                return Filled {
                    count: done,
                    end: End::Ended,
                };
            }
            ReadStep::Failed => {
                return Filled {
                    count: done,
                    end: End::Failed,
                };
            }
        }
    }
    Filled {
        count: done,
        end: End::Whole,
    }
}

/// Reads the next piece behind its mark, and digests its bytes.
pub(crate) fn next_piece<S: Source>(source: &mut S, buffer: &mut [u8], sum: &mut Md5) -> Filled
    requires { length buffer.old ≡ 65537 }
    ensures piece { FillsPiece result buffer.new (S.left source.old) (S.left source.new) sum.old sum.new (S.read_faults source.old) (S.read_faults source.new) }
    ensures stays { S.source_stays source.old source.new }
{
    buffer[0] = 0;
    let filled = fill_piece(source, &mut buffer[1..]);
    sum.update(&buffer[1..filled.count + 1]);
    filled
}

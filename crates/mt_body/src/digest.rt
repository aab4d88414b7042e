//! The rest of a source that isn't stored.
ghost use Rattle.std.specs.Prelude.{◌≡◌};
ghost use Rattle.mt_base.specs.Counts.{NeverFell, Rose};
ghost use Rattle.mt_body.specs.Storing.{Drains};

use md5::{Digest, Md5};
use mt_edge::{ReadStep, Source};

/// How many bytes are read at once.
const DROPPED: usize = 4_096;

/// Why no more is read.
#[derive(Clone, Copy, Debug, PartialEq, Eq)]
pub enum Drained {
    /// Nothing is left.
    Ended,
    /// The source has failed.
    SourceFault,
    /// The source did not end within 2 ^ 64 - 1 reads.
    Endless,
}

/// Reads a source to its end, and adds its bytes to a digest. It takes no memory.
pub fn digest_rest<S: Source>(source: &mut S, sum: &mut Md5) -> Drained
    ensures drains { Drains result (S.left source.old) (S.left source.new) sum.old sum.new }
    ensures failed { result ≡ Drained.SourceFault → Rose (S.read_faults source.old) (S.read_faults source.new) }
    ensures faults { NeverFell (S.read_faults source.old) (S.read_faults source.new) }
    ensures stays { S.source_stays source.old source.new }
{
    let mut dropped = [0; DROPPED];
    'rest: for _ in 0..u64::MAX {
        match source.read(&mut dropped) {
            ReadStep::Took(count) => sum.update(&dropped[..count]),
            ReadStep::End => return Drained::Ended,
            ReadStep::Failed => return Drained::SourceFault,
        }
    }
    Drained::Endless
}

//! A body that is held in memory.
ghost use Rattle.std.specs.Prelude.{◌≡◌, ℕ, List};
ghost use Rattle.mt_http.specs.Further.{BodyGoesOn};
ghost use Rattle.mt_api.specs.Jobs.{FillsSo, HeldEnds, HoldsSo};
ghost use Rattle.mt_base.specs.Counts.{NeverFell, Rose};
ghost use Rattle.mt_http.specs.BodyReading.{body_left};

use crate::bodies::{BodyEnd, end_body};
use mt_base::Bytes;
use mt_edge::{ReadStep, Source};
use mt_http::{BodyStream, Ending};
use std::alloc::Global;

/// How many bytes are read at once.
const PIECE: usize = 4_096;

/// Why no more is read.
#[derive(Drop)]
enum Filled {
    /// Nothing is left: this was.
    Ended(Bytes),
    /// The source has failed.
    SourceFault,
    /// Out of memory, or the source did not end within 2 ^ 64 - 1 reads.
    Memory,
}

/// What is known of a body that is to be held.
#[derive(Drop)]
pub(crate) enum Held {
    /// All of it was read, and is this.
    Whole(Bytes),
    /// It ended so, and not with its last byte.
    Unfinished(Ending),
    /// The source has failed.
    SourceFault,
    /// Out of memory.
    Memory,
}

// Reads what is left of a source.
fn hold_rest<S: Source>(alloc: Global, source: &mut S) -> Filled
    ensures fills { FillsSo result (S.left source.old) (S.left source.new) }
    ensures failed { result ≡ Filled.SourceFault → Rose (S.read_faults source.old) (S.read_faults source.new) }
    ensures faults { NeverFell (S.read_faults source.old) (S.read_faults source.new) }
    ensures stays { S.source_stays source.old source.new }
{
    let mut piece = [0; PIECE];
    let mut bytes = Vec::new(alloc);
    'rest: for _ in 0..u64::MAX {
        match source.read(&mut piece) {
            ReadStep::Took(count) => {
                if bytes.extend_from_slice(&piece[..count]).is_err() {
                    return Filled::Memory;
                }
            }
            ReadStep::End => return Filled::Ended(Bytes::from_vec(bytes)),
            ReadStep::Failed => return Filled::SourceFault,
        }
    }
    Filled::Memory
}

/// Reads the rest of a body and holds it. It takes memory in proportion to what comes, and none for what a head promises.
pub(crate) fn hold_body<S: Source>(alloc: Global, body: &mut BodyStream<'_, S>) -> Held
    ensures holds { (bytes : List ℕ) × HoldsSo result (body_left body.old.framer (S.left body.old.source.now)) bytes }
    ensures over { HeldEnds result body.new.framer.stage }
    ensures body { BodyGoesOn S.left S.read_faults S.source_stays body.old body.new (result ≡ Held.SourceFault) }
{
    match hold_rest(alloc, body) {
        Filled::Ended(bytes) => match end_body(body) {
            BodyEnd::Whole => return Held::Whole(bytes),
            BodyEnd::Unfinished(ending) => return Held::Unfinished(ending),
            BodyEnd::SourceFault => return Held::SourceFault,
            BodyEnd::Endless => unreachable!(),
        },
        Filled::SourceFault => return Held::SourceFault,
        Filled::Memory => return Held::Memory,
    }
}

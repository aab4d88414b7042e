//! The source of words is read whole.
ghost use Rattle.std.specs.Prelude.{◌≡◌, []};
ghost use Rattle.mt_client.specs.Inputs.{ReadsInput, TakesInput};

use mt_ask::Ask;
use mt_base::Bytes;
use mt_edge::{ReadStep, Source};
use mt_script::ClientEnd;
use std::alloc::Global;

/// A request carries at most so many bytes.
const LARGEST_INPUT: usize = 16_777_216;

/// A source is read by pieces of at most so many bytes.
const PIECE: usize = 4_096;

// Reads a source to its end, or until it has more than a request may carry.
fn read_input<S: Source>(alloc: Global, source: &mut S) -> Result<Bytes, ClientEnd>
    ensures stays { S.source_stays source.old source.new }
    ensures read { ReadsInput (S.left source.old) (S.read_faults source.old) result (S.left source.new) (S.read_faults source.new) }
{
    let mut input = Vec::new(alloc);
    let mut piece = [0; PIECE];
    'pieces: while input.len() <= LARGEST_INPUT {
        match source.read(&mut piece) {
            ReadStep::Took(count) => {
                if input.extend_from_slice(&piece[..count]).is_err() {
                    return Err(ClientEnd::Memory);
                }
            }
            ReadStep::End => return Ok(Bytes::from_vec(input)),
            ReadStep::Failed => return Err(ClientEnd::SourceFault),
        }
    }
    Err(ClientEnd::InputTooLarge)
}

// No bytes, without taking memory.
fn no_bytes(alloc: Global) -> Bytes
    ensures { result ≡ [] }
{
    Bytes::from_vec(Vec::new(alloc))
}

/// The bytes that the request of an ask carries: the source, read whole, or none. It takes memory as bytes come.
pub(crate) fn take_input<S: Source>(
    alloc: Global,
    ask: &Ask,
    source: &mut S,
) -> Result<Bytes, ClientEnd>
    ensures stays { S.source_stays source.old source.new }
    ensures takes { TakesInput ask.now (S.left source.old) (S.read_faults source.old) result (S.left source.new) (S.read_faults source.new) }
{
    if ask.carries_source() {
        read_input(alloc, source)
    } else {
        Ok(no_bytes(alloc))
    }
}

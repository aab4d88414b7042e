//! The body of an object is copied to the sink, as it comes.
ghost use Rattle.mt_client.specs.Exchanges.{CopiesBody};

use mt_edge::{Sink, Source};
use mt_response::{Copied, copy_body};
use mt_script::ClientEnd;

/// A body is copied by pieces of at most so many bytes.
const PIECE: usize = 65_536;

/// Copies the body of an object, of so many bytes. It takes no memory.
pub(crate) fn copy<L: Source, K: Sink>(link: &mut L, sink: &mut K, len: u64) -> ClientEnd
    ensures stays { L.source_stays link.old link.new }
    ensures sink_stays { K.sink_stays sink.old sink.new }
    ensures copies { CopiesBody len (L.left link.old) (L.read_faults link.old) (K.got sink.old) (K.write_faults sink.old)
        result (L.left link.new) (L.read_faults link.new) (K.got sink.new) (K.write_faults sink.new) }
{
    let mut buffer = [0; PIECE];
    match copy_body(link, sink, len, &mut buffer) {
        Copied::Whole => ClientEnd::Done,
        Copied::Ended(_) => ClientEnd::BadReply,
        Copied::LinkFault(_) => ClientEnd::LinkFault,
        Copied::SinkFault => ClientEnd::SinkFault,
    }
}

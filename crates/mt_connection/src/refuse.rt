//! The one reply before a connection is refused.
ghost use Rattle.std.specs.Prelude.{◌≤◌};
ghost use Rattle.mt_connection.specs.Endings.{refusal_text};
ghost use Rattle.mt_connection.specs.Steps.{Refuses};

use crate::end::{ConnectionEnd, Step};
use mt_base::LAST_MOMENT;
use mt_edge::Sink;
use mt_engine::Engine;
use mt_error::{ErrorCode, Refused};
use mt_http::{ReplyEnd, write_reply};
use mt_reply::{Stamp, error_reply};
use mt_types::{Body, Reply};
use std::alloc::Global;

/// Refuses what is no message, or one that is too large. The refusal has its body whatever the method is, and closes.
pub(crate) fn refuse<K: Sink>(
    alloc: Global,
    engine: &Engine,
    sink: &mut K,
    code: ErrorCode,
    moment: u64,
) -> Step
    requires { moment ≤ LAST_MOMENT }
    ensures refuses { Refuses (refusal_text code engine.now.state.count moment) result (K.got sink.old) (K.got sink.new) (K.write_faults sink.old) (K.write_faults sink.new) }
    ensures stays { K.sink_stays sink.old sink.new }
{
    let stamp = Stamp {
        position: engine.position(),
        moment,
        closes: true,
    };
    let reply: Reply<Body> = match error_reply(alloc, stamp, Refused::plain(code)) {
        Ok(reply) => reply,
        Err(_) => return Step::Over(ConnectionEnd::Memory),
    };
    match write_reply(alloc, sink, &reply, false) {
        Ok(()) => Step::Over(ConnectionEnd::Refused),
        Err(ReplyEnd::SinkFault) => Step::Over(ConnectionEnd::SinkFault),
        Err(ReplyEnd::Memory) => Step::Over(ConnectionEnd::Memory),
    }
}

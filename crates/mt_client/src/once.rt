//! Words of one request.
ghost use Rattle.std.specs.Prelude.{◌≡◌, ◌++◌};
ghost use Rattle.mt_ask.specs.Words.{IsAsk};
ghost use Rattle.mt_script.specs.Script.{once_of};
ghost use Rattle.mt_client.specs.Exchanges.{Finishes, Rests, body_limit};
ghost use Rattle.mt_client.specs.Once.{PlaysGet, PlaysOnce, is_copy, judged_once};
ghost use Rattle.mt_client.specs.Requests.{RequestEnds, sides_of};

use crate::copying::copy;
use crate::exchange::{Lead, exchange, link_end, receive_head, send};
use mt_ask::{Ask, Words, request_head};
use mt_edge::{Both, Sink, SinkFault, Source, write_all};
use mt_response::{ReplyHead, read_reply_body};
use mt_script::{ClientEnd, is_success, judge_once};
use std::alloc::Global;

/// The body of an answer and of a refusal has at most so many bytes.
pub(crate) const BODY_LIMIT: u64 = 16_777_216;

/// The body of an object has at most so many bytes.
const OBJECT_LIMIT: u64 = 1_073_741_824;

// Writes what a reply shows, and ends as it says.
fn finish<K: Sink>(
    alloc: Global,
    words: &Words,
    head: &ReplyHead,
    body: &[u8],
    sink: &mut K,
) -> ClientEnd
    ensures sink_stays { K.sink_stays sink.old sink.new }
    ensures finishes { Finishes (once_of words.now head.now body.now).text (once_of words.now head.now body.now).end (K.got sink.old) (K.write_faults sink.old) result (K.got sink.new) (K.write_faults sink.new) }
{
    let Ok(closing) = judge_once(alloc, words, head, body) else {
        return ClientEnd::Memory;
    };
    match write_all(sink, closing.text.as_slice()) {
        Ok(()) => closing.end,
        Err(SinkFault) => ClientEnd::SinkFault,
    }
}

// Sends a request, and ends as its reply says.
fn ask_once<L: Both, K: Sink>(
    alloc: Global,
    words: &Words,
    head: &[u8],
    input: &[u8],
    link: &mut L,
    sink: &mut K,
) -> ClientEnd
    ensures stays { L.stays link.old link.new }
    ensures sink_stays { K.sink_stays sink.old sink.new }
    ensures plays { RequestEnds body_limit (head.now ++ input.now) (judged_once words.now)
        (sides_of L.left L.read_faults L.got L.write_faults K.got K.write_faults link.old sink.old)
        result
        (sides_of L.left L.read_faults L.got L.write_faults K.got K.write_faults link.new sink.new) }
{
    match exchange(alloc, link, head, input, BODY_LIMIT) {
        Ok(reply) => finish(alloc, words, &reply.head, reply.body.as_slice(), sink),
        Err(end) => end,
    }
}

// Reads the body of a reply, and ends as it says.
fn read_rest<L: Source, K: Sink>(
    alloc: Global,
    words: &Words,
    lead: &Lead,
    link: &mut L,
    sink: &mut K,
) -> ClientEnd
    ensures stays { L.source_stays link.old link.new }
    ensures sink_stays { K.sink_stays sink.old sink.new }
    ensures rest { Rests words.now lead.now (L.left link.old) (L.read_faults link.old) (K.got sink.old) (K.write_faults sink.old)
        result (L.left link.new) (L.read_faults link.new) (K.got sink.new) (K.write_faults sink.new) }
{
    match read_reply_body(alloc, link, lead.len) {
        Ok(body) => finish(alloc, words, &lead.head, body.as_slice(), sink),
        Err(end) => link_end(end),
    }
}

// Sends a request, and copies its reply as it comes.
fn get<L: Both, K: Sink>(
    alloc: Global,
    words: &Words,
    head: &[u8],
    input: &[u8],
    link: &mut L,
    sink: &mut K,
) -> ClientEnd
    ensures stays { L.stays link.old link.new }
    ensures sink_stays { K.sink_stays sink.old sink.new }
    ensures plays { PlaysGet words.now (head.now ++ input.now)
        (sides_of L.left L.read_faults L.got L.write_faults K.got K.write_faults link.old sink.old)
        result
        (sides_of L.left L.read_faults L.got L.write_faults K.got K.write_faults link.new sink.new) }
{
    match send(link, head, input) {
        Ok(()) => match receive_head(alloc, link, OBJECT_LIMIT) {
            Ok(lead) => {
                if is_success(&words.ask, &lead.head) {
                    copy(link, sink, lead.len)
                } else {
                    read_rest(alloc, words, &lead, link, sink)
                }
            }
            Err(end) => link_end(end),
        },
        Err(SinkFault) => ClientEnd::LinkFault,
    }
}

// Whether the body of a reply is copied as it comes.
fn is_copy(ask: &Ask) -> bool
    ensures { result ≡ is_copy ask.now }
{
    match ask {
        Ask::Get(_) => true,
        Ask::List(_)
        | Ask::Find(_)
        | Ask::Put(_)
        | Ask::MakeDirectory(_)
        | Ask::Remove(_)
        | Ask::Link { .. }
        | Ask::CreateJob
        | Ask::AddInputs(_)
        | Ask::EndInput(_)
        | Ask::CancelJob(_)
        | Ask::JobStatus(_)
        | Ask::JobOutputs(_) => false,
    }
}

/// Plays words that aren't a listing, whose source has these bytes: one request, and what its reply says. An object is copied as
/// it comes, up to 1,073,741,824 bytes; any other body is read whole, up to 16,777,216.
pub(crate) fn play_once<L: Both, K: Sink>(
    alloc: Global,
    words: &Words,
    input: &[u8],
    link: &mut L,
    sink: &mut K,
) -> ClientEnd
    requires { IsAsk words.now.ask }
    ensures stays { L.stays link.old link.new }
    ensures sink_stays { K.sink_stays sink.old sink.new }
    ensures plays { PlaysOnce words.now input.now
        (sides_of L.left L.read_faults L.got L.write_faults K.got K.write_faults link.old sink.old)
        result
        (sides_of L.left L.read_faults L.got L.write_faults K.got K.write_faults link.new sink.new) }
{
    let Ok(head) = request_head(alloc, words, None, input.len() as u64) else {
        return ClientEnd::Memory;
    };
    let request = head.as_slice();
    if is_copy(&words.ask) {
        get(alloc, words, request, input, link, sink)
    } else {
        ask_once(alloc, words, request, input, link, sink)
    }
}

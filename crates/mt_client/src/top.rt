//! Words are read, and played.
ghost use Rattle.std.specs.Prelude.{◌≡◌, true, map, string_bytes};
ghost use Rattle.mt_ask.specs.Words.{IsAsk, words_of};
ghost use Rattle.mt_client.specs.Causes.{HasCause};
ghost use Rattle.mt_client.specs.Requests.{sides_of};
ghost use Rattle.mt_client.specs.Runs.{Plays, RunEnds, TellsUsage, WordsEnd, is_early};
ghost use Rattle.mt_script.specs.declared.end.ClientEnd.{ClientEnd};
ghost use Rattle.mt_script.specs.Ends.{code_of};

use crate::input::take_input;
use crate::once::play_once;
use crate::pages::play_pages;
use mt_ask::{Words, read_words};
use mt_edge::{Both, Sink, SinkFault, Source, write_all};
use mt_script::ClientEnd;
use std::alloc::Global;

// Tells how words are written.
fn usage<K: Sink>(sink: &mut K) -> ClientEnd
    ensures sink_stays { K.sink_stays sink.old sink.new }
    ensures usage { TellsUsage (K.got sink.old) (K.write_faults sink.old) result (K.got sink.new) (K.write_faults sink.new) }
{
    match write_all(
        sink,
        b"usage: manta --url HOST:PORT --login NAME COMMAND [ARGUMENTS]\n",
    ) {
        Ok(()) => ClientEnd::Usage,
        Err(SinkFault) => ClientEnd::SinkFault,
    }
}

// Words whose source has these bytes.
fn play<L: Both, K: Sink>(
    alloc: Global,
    words: &Words,
    input: &[u8],
    link: &mut L,
    sink: &mut K,
) -> ClientEnd
    requires { IsAsk words.now.ask }
    ensures stays { L.stays link.old link.new }
    ensures sink_stays { K.sink_stays sink.old sink.new }
    ensures plays { Plays words.now input.now
        (sides_of L.left L.read_faults L.got L.write_faults K.got K.write_faults link.old sink.old)
        result
        (sides_of L.left L.read_faults L.got L.write_faults K.got K.write_faults link.new sink.new) }
{
    if words.ask.is_listing() {
        play_pages(alloc, words, link, sink)
    } else {
        play_once(alloc, words, input, link, sink)
    }
}

// Words: their source is read before the link is touched, which may not stand until then.
fn run_words<L: Both, S: Source, K: Sink>(
    alloc: Global,
    words: &Words,
    link: &mut L,
    source: &mut S,
    sink: &mut K,
) -> ClientEnd
    requires { IsAsk words.now.ask }
    ensures ends { WordsEnd words.now (S.left source.old) (S.read_faults source.old)
        (sides_of L.left L.read_faults L.got L.write_faults K.got K.write_faults link.old sink.old)
        result (S.left source.new) (S.read_faults source.new)
        (sides_of L.left L.read_faults L.got L.write_faults K.got K.write_faults link.new sink.new) }
    ensures early { is_early result ≡ true → link.new ≡ link.old }
    ensures stays { L.stays link.old link.new }
    ensures source_stays { S.source_stays source.old source.new }
    ensures sink_stays { K.sink_stays sink.old sink.new }
{
    match take_input(alloc, &words.ask, source) {
        Ok(input) => play(alloc, words, input.as_slice(), link, sink),
        Err(end) => end,
    }
}

/// Runs the words of a client over a link to a store: what it sends, writes and answers is said by `specs/Runs`.
///
/// - The source is read by words alone whose request carries it, whole and before the link is touched: so a link may connect at
///   its first call. More than 16,777,216 bytes are `InputTooLarge`.
/// - One request is made, of a listing one for each page, and none is made twice. What comes behind the last reply isn't read.
/// - What replies show is written to the sink, and so is the line of an end: how words are written, `CODE: MESSAGE` of a refusal,
///   and `not a directory`.
pub fn run<L: Both, S: Source, K: Sink>(
    alloc: Global,
    words: &[String],
    link: &mut L,
    source: &mut S,
    sink: &mut K,
) -> ClientEnd
    ensures ends { RunEnds (words_of (map string_bytes words.now)) (S.left source.old) (S.read_faults source.old)
        (sides_of L.left L.read_faults L.got L.write_faults K.got K.write_faults link.old sink.old)
        result (S.left source.new) (S.read_faults source.new)
        (sides_of L.left L.read_faults L.got L.write_faults K.got K.write_faults link.new sink.new) }
    ensures early { is_early result ≡ true → link.new ≡ link.old }
    ensures cause { HasCause result (S.read_faults source.old) (S.read_faults source.new)
        (sides_of L.left L.read_faults L.got L.write_faults K.got K.write_faults link.old sink.old)
        (sides_of L.left L.read_faults L.got L.write_faults K.got K.write_faults link.new sink.new) }
    ensures stays { L.stays link.old link.new }
    ensures source_stays { S.source_stays source.old source.new }
    ensures sink_stays { K.sink_stays sink.old sink.new }
{
    match read_words(alloc, words) {
        Ok(Some(asked)) => run_words(alloc, &asked, link, source, sink),
        Ok(None) => usage(sink),
        Err(_) => ClientEnd::Memory,
    }
}

/// The same, and the status of a program that ends so: 0 to 9, by [`ClientEnd::code`].
pub fn manta<L: Both, S: Source, K: Sink>(
    alloc: Global,
    words: &[String],
    link: &mut L,
    source: &mut S,
    sink: &mut K,
) -> u8
    ensures ends { (e : ClientEnd) × (result ≡ code_of e) × RunEnds (words_of (map string_bytes words.now)) (S.left source.old) (S.read_faults source.old)
        (sides_of L.left L.read_faults L.got L.write_faults K.got K.write_faults link.old sink.old)
        e (S.left source.new) (S.read_faults source.new)
        (sides_of L.left L.read_faults L.got L.write_faults K.got K.write_faults link.new sink.new)
        × (is_early e ≡ true → link.new ≡ link.old)
        × HasCause e (S.read_faults source.old) (S.read_faults source.new)
        (sides_of L.left L.read_faults L.got L.write_faults K.got K.write_faults link.old sink.old)
        (sides_of L.left L.read_faults L.got L.write_faults K.got K.write_faults link.new sink.new) }
    ensures stays { L.stays link.old link.new }
    ensures source_stays { S.source_stays source.old source.new }
    ensures sink_stays { K.sink_stays sink.old sink.new }
{
    run(alloc, words, link, source, sink).code()
}

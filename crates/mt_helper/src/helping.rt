//! The helpers: their words, and what each does.
ghost use Rattle.std.specs.Prelude.{◌≡◌, ◌<◌, ◌≤◌, length, map, string_bytes};
ghost use Rattle.mt_base.specs.Counts.{NeverFell};
ghost use Rattle.mt_records.specs.Heads.{IsShort, head_bytes};
ghost use Rattle.mt_records.specs.Records.{record_bytes};
ghost use Rattle.mt_helper.specs.Ends.{AreLater, ends};
ghost use Rattle.mt_helper.specs.Helping.{Helped, IsFit, Made, Ran, ReadsInput, Shared, part_records, words_status};
ghost use Rattle.mt_helper.specs.Streaming.{Streamed};
ghost use Rattle.mt_helper.specs.Words.{asked_by};

use crate::limits::{LARGEST_INPUT, SMALL_PIECE};
use crate::placing::asked_by;
use crate::records::{put_parts, put_refs};
use crate::status::{Refusal, Status, WordsError};
use crate::streaming::stream;
use crate::tool::Tool;
use mt_base::Bytes;
use mt_edge::{ReadStep, Sink, Source};
use mt_records::{RecordHead, encode_head};
use mt_spawn::Spool;
use mt_split::{KeyRule, split};
use std::alloc::Global;

// The status of words that were not read.
fn status_of(error: WordsError) -> Status
    ensures { result ≡ words_status error }
{
    match error {
        WordsError::Refused(Refusal::Usage) => Status::Usage,
        WordsError::Refused(Refusal::BadPath) => Status::BadPath,
        WordsError::Memory => Status::OutOfMemory,
    }
}

// All that is left of a source, up to the limit.
fn read_input<S: Source>(alloc: Global, source: &mut S) -> Result<Bytes, Status>
    ensures reads { ReadsInput (S.left source.old) result (S.left source.new) (S.read_faults source.old) (S.read_faults source.new) }
    ensures later { NeverFell (S.read_faults source.old) (S.read_faults source.new) }
    ensures stays { S.source_stays source.old source.new }
{
    let mut bytes = Vec::new(alloc);
    let mut buffer = [0; SMALL_PIECE];
    'read: loop {
        match source.read(&mut buffer) {
            ReadStep::Took(count) => {
                if count > LARGEST_INPUT - bytes.len() {
                    return Err(Status::InputTooLarge);
                }
                if bytes.extend_from_slice(&buffer[..count]).is_err() {
                    return Err(Status::OutOfMemory);
                }
            }
            ReadStep::End => return Ok(Bytes::from_vec(bytes)),
            ReadStep::Failed => return Err(Status::SourceFault),
        }
    }
}

// The lines of a text as records of reducers.
fn share<P: Spool>(alloc: Global, spool: &mut P, text: &[u8], count: u32, rule: &KeyRule) -> Status
    requires some { 0 < count }
    requires small { length text.now ≤ LARGEST_INPUT }
    ensures { Made (map record_bytes (part_records count rule.now text.now)) result (P.files spool.old) (P.faults spool.old) (P.files spool.new) (P.faults spool.new) }
{
    match split(alloc, text, count, rule) {
        Ok(parts) => put_parts(alloc, spool, text, &parts, count),
        Err(_) => Status::OutOfMemory,
    }
}

// What mpipe and mtee do: one record with this head, of all that is left of the source.
fn stream_behind<S: Source, K: Sink, P: Spool>(
    alloc: Global,
    head: &RecordHead,
    copies: bool,
    source: &mut S,
    sink: &mut K,
    spool: &mut P,
) -> Status
    requires { IsShort head.now }
    ensures streamed { Streamed (head_bytes head.now) copies result
        (ends (S.left source.old) (K.got sink.old) (P.files spool.old) (S.read_faults source.old) (K.write_faults sink.old) (P.faults spool.old))
        (ends (S.left source.new) (K.got sink.new) (P.files spool.new) (S.read_faults source.new) (K.write_faults sink.new) (P.faults spool.new)) }
    ensures later { AreLater
        (ends (S.left source.old) (K.got sink.old) (P.files spool.old) (S.read_faults source.old) (K.write_faults sink.old) (P.faults spool.old))
        (ends (S.left source.new) (K.got sink.new) (P.files spool.new) (S.read_faults source.new) (K.write_faults sink.new) (P.faults spool.new)) }
    ensures source_stays { S.source_stays source.old source.new }
    ensures sink_stays { K.sink_stays sink.old sink.new }
{
    match encode_head(alloc, head) {
        Ok(bytes) => stream(alloc, &bytes, copies, source, sink, spool),
        Err(_) => Status::OutOfMemory,
    }
}

// What msplit does: it reads all, and then makes one record for each reducer.
fn split_input<S: Source, P: Spool>(
    alloc: Global,
    count: u32,
    rule: &KeyRule,
    source: &mut S,
    spool: &mut P,
) -> Status
    requires { 0 < count }
    ensures shared { Shared count rule.now result (S.left source.old) (S.left source.new) (S.read_faults source.old) (S.read_faults source.new)
        (P.files spool.old) (P.files spool.new) (P.faults spool.old) (P.faults spool.new) }
    ensures reads { NeverFell (S.read_faults source.old) (S.read_faults source.new) }
    ensures spools { NeverFell (P.faults spool.old) (P.faults spool.new) }
    ensures stays { S.source_stays source.old source.new }
{
    match read_input(alloc, source) {
        Ok(text) => share(alloc, spool, text.as_slice(), count, rule),
        Err(status) => status,
    }
}

// What a tool does.
fn run<S: Source, K: Sink, P: Spool>(
    alloc: Global,
    tool: Tool,
    source: &mut S,
    sink: &mut K,
    spool: &mut P,
) -> Status
    requires { IsFit tool }
    ensures ran { Ran tool result
        (ends (S.left source.old) (K.got sink.old) (P.files spool.old) (S.read_faults source.old) (K.write_faults sink.old) (P.faults spool.old))
        (ends (S.left source.new) (K.got sink.new) (P.files spool.new) (S.read_faults source.new) (K.write_faults sink.new) (P.faults spool.new)) }
    ensures later { AreLater
        (ends (S.left source.old) (K.got sink.old) (P.files spool.old) (S.read_faults source.old) (K.write_faults sink.old) (P.faults spool.old))
        (ends (S.left source.new) (K.got sink.new) (P.files spool.new) (S.read_faults source.new) (K.write_faults sink.new) (P.faults spool.new)) }
    ensures source_stays { S.source_stays source.old source.new }
    ensures sink_stays { K.sink_stays sink.old sink.new }
{
    match tool {
        Tool::Pipe { place, reducer } => stream_behind(
            alloc,
            &RecordHead::Emit { place, reducer },
            false,
            source,
            sink,
            spool,
        ),
        Tool::Tee { place } => {
            stream_behind(
                alloc,
                &RecordHead::Keep { place },
                true,
                source,
                sink,
                spool,
            )
        }
        Tool::Cat { names } => put_refs(alloc, spool, names.as_slice()),
        Tool::Split { count, rule } => split_input(alloc, count, &rule, source, spool),
    }
}

/// What a helper does: the first word is the login, the second the tool, `mpipe`, `mtee`, `mcat` or `msplit`, and what the tool is
/// asked for stands behind it. Words and paths are looked at before anything is read or made.
pub fn helper<S: Source, K: Sink, P: Spool>(
    alloc: Global,
    words: &[String],
    source: &mut S,
    sink: &mut K,
    spool: &mut P,
) -> Status
    ensures helped { Helped (asked_by (map string_bytes words.now)) result
        (ends (S.left source.old) (K.got sink.old) (P.files spool.old) (S.read_faults source.old) (K.write_faults sink.old) (P.faults spool.old))
        (ends (S.left source.new) (K.got sink.new) (P.files spool.new) (S.read_faults source.new) (K.write_faults sink.new) (P.faults spool.new)) }
    ensures later { AreLater
        (ends (S.left source.old) (K.got sink.old) (P.files spool.old) (S.read_faults source.old) (K.write_faults sink.old) (P.faults spool.old))
        (ends (S.left source.new) (K.got sink.new) (P.files spool.new) (S.read_faults source.new) (K.write_faults sink.new) (P.faults spool.new)) }
    ensures source_stays { S.source_stays source.old source.new }
    ensures sink_stays { K.sink_stays sink.old sink.new }
{
    match asked_by(alloc, words) {
        Ok(tool) => run(alloc, tool, source, sink, spool),
        Err(error) => status_of(error),
    }
}

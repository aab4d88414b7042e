//! A listing, page by page.
ghost use Rattle.std.specs.Prelude.{◌≡◌};
ghost use Rattle.std.specs.Option.{option_copied};
ghost use Rattle.mt_ask.specs.Words.{IsAsk};
ghost use Rattle.mt_client.specs.Exchanges.{AsksPage, HandsOn, Shows};
ghost use Rattle.mt_client.specs.Listings.{ListingGoes, PlaysPages, ask_due};
ghost use Rattle.mt_client.specs.Requests.{sides_of};

use crate::exchange::exchange;
use crate::once::BODY_LIMIT;
use mt_ask::{PageAsk, Words, request_head};
use mt_edge::{Both, Sink, SinkFault, write_all};
use mt_page::PageRows;
use mt_script::{ClientEnd, Closing, Level, first_levels, go_on, judge_page};
use std::alloc::Global;
use std::collections::VecDeque;

/// A run makes at most so many requests.
const MOST_REQUESTS: u32 = 1_000_000;

// The page that is due.
fn page_due(levels: &VecDeque<Level>) -> Option<&PageAsk>
    ensures { option_copied result ≡ ask_due levels.now.items }
{
    match levels.front() {
        Some(level) => Some(level.ask()),
        None => None,
    }
}

// Asks for a page, and judges what comes.
fn ask_page<L: Both>(
    alloc: Global,
    words: &Words,
    ask: &PageAsk,
    link: &mut L,
) -> Result<Result<PageRows, Closing>, ClientEnd>
    requires { IsAsk words.now.ask }
    ensures stays { L.stays link.old link.new }
    ensures asks { AsksPage words.now ask.now (L.left link.old) (L.read_faults link.old) (L.got link.old) (L.write_faults link.old)
        result (L.left link.new) (L.read_faults link.new) (L.got link.new) (L.write_faults link.new) }
{
    let Ok(head) = request_head(alloc, words, Some(ask), 0) else {
        return Err(ClientEnd::Memory);
    };
    let request = head.as_slice();
    match exchange(alloc, link, request, b"", BODY_LIMIT) {
        Ok(reply) => {
            let body = reply.body.as_slice();
            match judge_page(alloc, ask, &reply.head, body) {
                Ok(page) => Ok(page),
                Err(_) => Err(ClientEnd::Memory),
            }
        }
        Err(end) => Err(end),
    }
}

// Writes a text.
fn hand_on<K: Sink>(sink: &mut K, text: &[u8]) -> Result<(), ClientEnd>
    ensures sink_stays { K.sink_stays sink.old sink.new }
    ensures hands { HandsOn text.now (K.got sink.old) (K.write_faults sink.old) result (K.got sink.new) (K.write_faults sink.new) }
{
    match write_all(sink, text) {
        Ok(()) => Ok(()),
        Err(SinkFault) => Err(ClientEnd::SinkFault),
    }
}

// What a page shows, or how the run ends.
fn show<K: Sink>(
    alloc: Global,
    words: &Words,
    levels: &mut VecDeque<Level>,
    page: Result<PageRows, Closing>,
    sink: &mut K,
) -> Result<(), ClientEnd>
    ensures sink_stays { K.sink_stays sink.old sink.new }
    ensures shows { Shows words.now levels.old.items page (K.got sink.old) (K.write_faults sink.old)
        result levels.new.items (K.got sink.new) (K.write_faults sink.new) }
{
    match page {
        Ok(rows) => match go_on(alloc, words, levels, rows) {
            Ok(text) => hand_on(sink, text.as_slice()),
            Err(_) => Err(ClientEnd::Memory),
        },
        Err(closing) => {
            hand_on(sink, closing.text.as_slice())?;
            Err(closing.end)
        }
    }
}

// The next page of a listing: what it shows, or how the run ends.
fn next_page<L: Both, K: Sink>(
    alloc: Global,
    words: &Words,
    levels: &mut VecDeque<Level>,
    link: &mut L,
    sink: &mut K,
) -> Result<(), ClientEnd>
    requires { IsAsk words.now.ask }
    ensures stays { L.stays link.old link.new }
    ensures sink_stays { K.sink_stays sink.old sink.new }
    ensures goes { ListingGoes words.now levels.old.items
        (sides_of L.left L.read_faults L.got L.write_faults K.got K.write_faults link.old sink.old)
        result levels.new.items
        (sides_of L.left L.read_faults L.got L.write_faults K.got K.write_faults link.new sink.new) }
{
    match page_due(levels) {
        Some(ask) => match ask_page(alloc, words, ask, link) {
            Ok(page) => show(alloc, words, levels, page, sink),
            Err(end) => Err(end),
        },
        None => Err(ClientEnd::Done),
    }
}

/// Plays a listing: page by page, at most 1,000,000 of them. A page is judged whole before a row of it is shown. Directories that
/// a search is in are kept, each with the rows of a page that are still to be shown: at most 512 of 256 rows.
pub(crate) fn play_pages<L: Both, K: Sink>(
    alloc: Global,
    words: &Words,
    link: &mut L,
    sink: &mut K,
) -> ClientEnd
    requires { IsAsk words.now.ask }
    ensures stays { L.stays link.old link.new }
    ensures sink_stays { K.sink_stays sink.old sink.new }
    ensures plays { PlaysPages words.now
        (sides_of L.left L.read_faults L.got L.write_faults K.got K.write_faults link.old sink.old)
        result
        (sides_of L.left L.read_faults L.got L.write_faults K.got K.write_faults link.new sink.new) }
{
    let Ok(mut levels) = first_levels(alloc, &words.ask) else {
        return ClientEnd::Memory;
    };
    let mut requests = 0;
    'pages: while requests < MOST_REQUESTS {
        match next_page(alloc, words, &mut levels, link, sink) {
            Ok(()) => requests += 1,
            Err(end) => return end,
        }
    }
    match page_due(&levels) {
        Some(_) => ClientEnd::TooManyRequests,
        None => ClientEnd::Done,
    }
}

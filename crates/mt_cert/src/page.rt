//! A page of lines, which goes to a sink when it is full.
ghost use Rattle.std.specs.Prelude.{true, ◌≡◌, [], ◌∷◌, ℕ, List, OnOk, length, nat_lt};
ghost use Rattle.mt_certline.specs.Written.{IsShowable};
ghost use Rattle.mt_checker.specs.declared.limits.TheConstants.{LONGEST_LINE};
ghost use Rattle.mt_cert.specs.Putting.{HasLine, PutsTo, out_at};

use mt_base::Text;
use mt_certline::{Line, line_text};
use mt_checker::LONGEST_LINE;
use mt_edge::{Sink, SinkFault, write_all};
use std::alloc::{AllocError, Global};

/// The bytes of a full page.
const PAGE: usize = 65_536;

/// Why lines were not put.
#[derive(Clone, Copy)]
pub(crate) enum Halt {
    /// The sink has failed.
    SinkFault,
    /// Out of memory.
    Memory,
}

/// The lines that have not gone to a sink yet.
#[derive(Drop)]
pub(crate) struct Page {
    /// Their text.
    pub text: Vec<u8>,
    /// Whether each line so far is within the limit of lines.
    pub short: bool,
    /// The number of lines so far.
    pub lines: u64,
}

/// A page without lines.
pub(crate) fn no_lines(alloc: Global) -> Page
    ensures text { result.text.items ≡ [] }
    ensures short { result.short ≡ true }
    ensures lines { result.lines ≡ 0 }
{
    Page {
        text: Vec::new(alloc),
        short: true,
        lines: 0,
    }
}

// Whether a line is within the limit.
fn is_short(text: &Text) -> bool
    ensures { result ≡ nat_lt (length text.now) LONGEST_LINE }
{
    (text.len() as u64) < LONGEST_LINE
}

// Adds a line to a page. On an error, which is want of memory, the page may hold anything.
fn add_line(alloc: Global, login: &str, line: &Line, page: &mut Page) -> Result<(), AllocError>
    requires { IsShowable line.now }
    ensures { OnOk result (HasLine login.now line.now page.old page.new) }
{
    let text = line_text(alloc, login, line)?;
    let Some(lines) = page.lines.checked_add(1) else {
        return Err(AllocError);
    };
    page.text.extend_from_slice(text.as_bytes())?;
    page.text.push(b'\n')?;
    if !is_short(&text) {
        page.short = false;
    }
    page.lines = lines;
    Ok(())
}

/// Sends what stands in a page.
pub(crate) fn send<K: Sink>(page: &mut Page, sink: &mut K) -> Result<(), Halt>
    ensures sends { (login : List ℕ) → PutsTo login [] result (out_at page.old (K.got sink.old) (K.write_faults sink.old)) (out_at page.new (K.got sink.new) (K.write_faults sink.new)) }
    ensures empty { OnOk result (page.new.text.items ≡ []) }
    ensures stays { K.sink_stays sink.old sink.new }
{
    match write_all(sink, &page.text) {
        Ok(()) => {
            page.text.clear();
            Ok(())
        }
        Err(SinkFault) => Err(Halt::SinkFault),
    }
}

/// Puts a line into a page, and the page into a sink where it is full.
pub(crate) fn put_line<K: Sink>(
    alloc: Global,
    login: &str,
    line: &Line,
    page: &mut Page,
    sink: &mut K,
) -> Result<(), Halt>
    requires { IsShowable line.now }
    ensures puts { PutsTo login.now (line.now ∷ []) result (out_at page.old (K.got sink.old) (K.write_faults sink.old)) (out_at page.new (K.got sink.new) (K.write_faults sink.new)) }
    ensures stays { K.sink_stays sink.old sink.new }
{
    if add_line(alloc, login, line, page).is_err() {
        return Err(Halt::Memory);
    }
    if page.text.len() < PAGE {
        return Ok(());
    }
    send(page, sink)
}

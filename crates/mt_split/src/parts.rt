//! The lines of each reducer.
ghost use Rattle.std.specs.Prelude.{◌≡◌, ◌+◌, ◌<◌, ◌≤◌, ◌^◌, [], ◌∷◌, ◌++◌, length, take, drop, IfOk, OnOk, slice_index_or, slice_set};
ghost use Rattle.std.proofs.Math.ListN.{replicate};
ghost use Rattle.mt_split.specs.Partition.{lines_of, line_key, reducer_of};
ghost use Rattle.mt_split.specs.Spans.{AreParts};

use crate::key::{KeyRule, put_fields, without_line_feed};
use crate::places::{behind, place_of};
use crate::routing::route;
use mt_base::Sequence;
use std::alloc::{AllocError, Global};
use std::marker::Model;

/// A line of a text. Places count bytes from 0.
#[derive(Clone, Copy, Debug, PartialEq, Eq, Drop)]
pub struct Span {
    /// Where it begins.
    pub from: u32,
    /// How many bytes it has, its line feed among them.
    pub len: u32,
}

/// The lines of a text, by the reducer that gets them: a list of spans a reducer. Of each line it keeps 8 bytes.
#[derive(Debug, Drop)]
pub struct Parts {
    parts: Vec<Sequence<Span>>,
}

impl Model for Parts {
    ghost use Rattle.std.specs.Prelude.{List};
    ghost use Rattle.mt_split.specs.declared.parts.Span.{Span};

    ghost Value = { List (List Span) };

    ghost view = { λ p. p.parts.items };
}

impl Parts {
    /// The lines of a reducer, counted from 0, in their order.
    pub fn part(&self, reducer: u32) -> &[Span]
        requires some { reducer < length self.now }
        ensures { result.now ≡ slice_index_or self.now reducer [] }
    {
        self.parts[reducer as usize].as_slice()
    }
}

/// Which of the `n` reducers gets which lines of a text, by one pass over it and one digest a line.
pub fn split(alloc: Global, text: &[u8], n: u32, rule: &KeyRule) -> Result<Parts, AllocError>
    requires some { 0 < n }
    requires small { length text.now < 2 ^ 32 }
    ensures { IfOk result (λ parts. AreParts text.now n rule.now parts) }
{
    let mut parts = no_parts(alloc, n)?;
    let mut key = Vec::new(alloc);
    let mut from = 0;
    while from < text.len() {
        let rest = behind(text, from);
        let len = line_len(rest);
        let reducer = reducer_of(&mut key, &rest[..len], n, rule)?;
        let line = Span {
            from: from as u32,
            len: len as u32,
        };
        add(&mut parts, reducer, line)?;
        from += len;
    }
    Ok(Parts { parts })
}

// A part without lines for each of n reducers.
fn no_parts(alloc: Global, n: u32) -> Result<Vec<Sequence<Span>>, AllocError>
    ensures { IfOk result (λ parts. parts.items ≡ replicate n []) }
{
    let mut parts = Vec::with_capacity(alloc, n as usize)?;
    for reducer in 0..n {
        parts.push(Sequence::new(alloc))?;
    }
    Ok(parts)
}

// How many bytes the first line has, its line feed among them.
fn line_len(text: &[u8]) -> usize
    requires some { 0 < length text.now }
    ensures some { 0 < result }
    ensures bound { result ≤ length text.now }
    ensures first { lines_of text.now ≡ take result text.now ∷ lines_of (drop result text.now) }
{
    let place = place_of(b'\n', text);
    if place < text.len() { place + 1 } else { place }
}

// The reducer of a line. `key` is room for keys, and holds anything.
fn reducer_of(key: &mut Vec<u8>, line: &[u8], n: u32, rule: &KeyRule) -> Result<u32, AllocError>
    requires some { 0 < n }
    ensures value { IfOk result (λ reducer. reducer ≡ reducer_of (line_key line.now rule.now) n) }
    ensures below { IfOk result (λ reducer. reducer < n) }
{
    match rule {
        KeyRule::Line => Ok(route(without_line_feed(line), n)),
        KeyRule::Fields { delimiter, numbers } => {
            key.clear();
            put_fields(key, without_line_feed(line), *delimiter, numbers.as_slice())?;
            Ok(route(key, n))
        }
    }
}

// Adds a line to a reducer's part.
fn add(parts: &mut Vec<Sequence<Span>>, reducer: u32, line: Span) -> Result<(), AllocError>
    requires some { reducer < length parts.old.items }
    ensures { OnOk result (parts.new.items ≡ slice_set parts.old.items reducer (slice_index_or parts.old.items reducer [] ++ line ∷ [])) }
{
    parts[reducer as usize].push(line)
}

//! The body of a message as a source.
ghost use Rattle.std.specs.Prelude.{◌≡◌, ◌<◌, length, None};
ghost use Rattle.mt_base.specs.Counts.{NeverFell, Rose};
ghost use Rattle.mt_http.specs.Body.{data_left, ended, first_state};
ghost use Rattle.mt_http.specs.BodyReading.{Finished, Reaches, Streams, after_body, body_left};
ghost use Rattle.mt_http.specs.Further.{BodyGoesOn, FramerGoesOn, taken_by};

use crate::framing::Framing;
use crate::head::PIECE;
use crate::message::{Ending, Head};
use crate::stage::{Framer, Stage};
use mt_edge::{ReadStep, Source};

/// The bytes of a body that are dropped at once.
const DROPPED: usize = 4_096;

/// What comes next of a body.
#[derive(Clone, Copy)]
pub(crate) enum Reached {
    /// So many bytes of it, at least one.
    Data(u64),
    /// No byte of it.
    Over,
    /// The source failed.
    Failed,
}

// Reads up to the next byte of a body, a line at a time.
fn reach_data<S: Source>(source: &mut S, framer: &mut Framer) -> Reached
    ensures reached { Reaches framer.old (S.left source.old) (S.read_faults source.old)
        result framer.new (S.left source.new) (S.read_faults source.new) }
    ensures goes_on { FramerGoesOn S.source_stays source.old source.new framer.old framer.new 0 }
{
    let mut piece = [0; PIECE];
    loop {
        match framer.stage() {
            Stage::Counted(left) | Stage::Chunk(left) => return Reached::Data(left),
            Stage::Over(_) => return Reached::Over,
            _ => {}
        }
        let into = &mut piece[..framer.room()];
        match source.read_line(into) {
            ReadStep::Took(count) => framer.take_piece(&into[..count]),
            ReadStep::End => {
                framer.cut();
                return Reached::Over;
            }
            ReadStep::Failed => return Reached::Failed,
        }
    }
}

// Reads bytes of a body, of which so many come next.
fn read_data<S: Source>(source: &mut S, framer: &mut Framer, into: &mut [u8], left: u64) -> ReadStep
    requires room { 0 < length into.old }
    requires some { 0 < left }
    requires next { data_left framer.old.stage ≡ left }
    ensures streams { Streams framer.old (S.left source.old) (S.read_faults source.old) into.new
        result framer.new (S.left source.new) (S.read_faults source.new) }
    ensures goes_on { FramerGoesOn S.source_stays source.old source.new framer.old framer.new (taken_by result) }
{
    let most = left.min(into.len() as u64) as usize;
    match source.read(&mut into[..most]) {
        ReadStep::Took(count) => {
            framer.take_data(count as u64);
            ReadStep::Took(count)
        }
        ReadStep::End => {
            framer.cut();
            ReadStep::End
        }
        ReadStep::Failed => ReadStep::Failed,
    }
}

/// Reads bytes of a body.
pub(crate) fn read_framed<S: Source>(
    source: &mut S,
    framer: &mut Framer,
    into: &mut [u8],
) -> ReadStep
    requires { 0 < length into.old }
    ensures streams { Streams framer.old (S.left source.old) (S.read_faults source.old) into.new
        result framer.new (S.left source.new) (S.read_faults source.new) }
    ensures goes_on { FramerGoesOn S.source_stays source.old source.new framer.old framer.new (taken_by result) }
{
    match reach_data(source, framer) {
        Reached::Data(left) => read_data(source, framer, into, left),
        Reached::Over => ReadStep::End,
        Reached::Failed => ReadStep::Failed,
    }
}

// Reads the rest of a body and drops it, and tells how it ended.
fn drop_rest<S: Source>(source: &mut S, framer: &mut Framer) -> Option<Ending>
    ensures ended { Finished framer.old (S.left source.old) result framer.new (S.left source.new) }
    ensures failed { result ≡ None → Rose (S.read_faults source.old) (S.read_faults source.new) }
    ensures faults { NeverFell (S.read_faults source.old) (S.read_faults source.new) }
    ensures goes_on { FramerGoesOn S.source_stays source.old source.new framer.old framer.new 0 }
{
    let mut dropped = [0; DROPPED];
    'rest: loop {
        match read_framed(source, framer, &mut dropped) {
            ReadStep::Took(_) => {}
            ReadStep::End => return framer.ending(),
            ReadStep::Failed => return None,
        }
    }
}

/// The body of a message, read from the source that stands at its first byte. It is a source of the body's bytes,
/// never reads its source past the body, holds at most one chunk line and takes no memory.
#[derive(Drop)]
pub struct BodyStream<'a, S> {
    source: &'a mut S,
    framer: Framer,
}

impl<'a, S: Source> BodyStream<'a, S> {
    /// The body of this head, of at most so many bytes.
    pub fn new(source: &'a mut S, head: &Head, limit: u64) -> BodyStream<'a, S>
        ensures source { result.source ≡ source.entry }
        ensures framer { result.framer ≡ first_state head.now.framing limit }
    {
        BodyStream {
            source,
            framer: Framer::new(head.framing, limit),
        }
    }

    /// How the body ended, if it has: after its last byte was read, the next read says that it ends.
    pub fn ending(&self) -> Option<Ending>
        ensures { result ≡ ended self.now.framer.stage }
    {
        self.framer.ending()
    }

    /// Reads the rest of the body and drops it, and tells how the body ended: the source stands behind it. `None` where
    /// the source failed; the rest of the body is still to be read. It takes no memory.
    pub fn finish(&mut self) -> Option<Ending>
        ensures ended { Finished self.old.framer (S.left self.old.source.now) result self.new.framer (S.left self.new.source.now) }
        ensures body { BodyGoesOn S.left S.read_faults S.source_stays self.old self.new (result ≡ None) }
    {
        drop_rest(self.source, &mut self.framer)
    }
}

impl<S: Source> Source for BodyStream<'_, S> {
    ghost use Rattle.std.specs.Prelude.{◌≡◌, refl};
    ghost use Rattle.std.proofs.Common.{◌∙◌};

    // The bytes of the body that are left.
    ghost left = { λ b. body_left b.framer (S.left b.source.now) };

    ghost read_faults = { λ b. S.read_faults b.source.now };

    // The same source, of which the rest stays, how the body will end, and what follows it.
    ghost source_stays = { λ b c. (c.source.ghost_name ≡ b.source.ghost_name) × S.source_stays b.source.now c.source.now
        × (after_body c.framer (S.left c.source.now) ≡ after_body b.framer (S.left b.source.now)) };

    fn read(&mut self, into: &mut [u8]) -> ReadStep {
        read_framed(self.source, &mut self.framer, into)
    }

    ghost source_same = { λ b. (refl, S.source_same b.source.now, refl) };

    ghost source_joined = { λ a b c h k. (k.0 ∙ h.0, S.source_joined a.source.now b.source.now c.source.now h.1 k.1, k.2 ∙ h.2) };
}

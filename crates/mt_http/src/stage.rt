//! How far a body has been read: what the next byte of its source is.
ghost use Rattle.std.specs.Prelude.{◌≡◌, ◌≢◌, ◌<◌, ◌≤◌, ◌+◌, ℕ, IsTrue, None, false, get_or, is_some, length, min};
ghost use Rattle.mt_http.specs.Body.{after_bytes, after_data, after_line, counted, data_left, ended, first_state, in_chunk, is_data, is_sound, line_byte, line_room, next_state, over, trailer_byte, trailer_line};
ghost use Rattle.mt_http.specs.Chunk.{chunk_line_size};

use crate::chunk::read_chunk_line;
use crate::framing::Framing;
use crate::head::PIECE;
use crate::message::Ending;
use std::marker::Model;

/// A chunk line has no more bytes than this.
const LINE_LIMIT: usize = 256;

/// A trailer has no more bytes than this.
const TRAILER_LIMIT: usize = 65_536;

/// What came of a line of a trailer.
#[derive(Clone, Copy, Debug, PartialEq, Eq)]
pub enum TrailerLine {
    Nothing,
    /// A CR.
    Return,
    /// What makes it no empty line.
    Text,
}

/// What the next byte of a body's source is.
#[derive(Clone, Copy, Debug, PartialEq, Eq)]
pub enum Stage {
    /// One of so many, at least one, that are left of a body whose length was told.
    Counted(u64),
    /// A byte of a chunk line.
    ChunkLine,
    /// One of so many, at least one, that are left of a chunk.
    Chunk(u64),
    /// The CR after a chunk.
    ChunkReturn,
    /// The LF after that.
    ChunkFeed,
    /// A byte of the trailer, of which so many came, and this of its line.
    Trailer(usize, TrailerLine),
    /// None of the body's.
    Over(Ending),
}

/// How far a body has been read.
#[derive(Drop)]
pub(crate) struct Framer {
    stage: Stage,
    // What came of a chunk line, at the front.
    line: [u8; LINE_LIMIT],
    filled: usize,
    // The sizes of the chunks so far, together.
    sizes: u64,
    limit: u64,
}

impl Model for Framer {
    ghost use Rattle.std.specs.Prelude.{◌≤◌, IsTrue, take};
    ghost use Rattle.mt_http.specs.Body.{BodyState, is_sound};

    ghost Value = { BodyState };

    ghost view = { λ f. record { stage = f.stage; line = take f.filled f.line; sizes = f.sizes; limit = f.limit } };

    ghost invariant = { λ f. (f.filled ≤ 256) × IsTrue (is_sound f.stage) };
}

fn first_stage(framing: Framing, limit: u64) -> Stage
    ensures stage { result ≡ (first_state framing limit).stage }
    ensures sound { IsTrue (is_sound result) }
{
    match framing {
        Framing::Empty => Stage::Over(Ending::Whole),
        Framing::Length(size) => {
            if limit < size {
                Stage::Over(Ending::TooLarge)
            } else if size == 0 {
                Stage::Over(Ending::Whole)
            } else {
                Stage::Counted(size)
            }
        }
        Framing::Chunked => Stage::ChunkLine,
    }
}

impl Framer {
    /// A body before its first byte, of no more bytes than this.
    pub(crate) fn new(framing: Framing, limit: u64) -> Framer
        ensures { result ≡ first_state framing limit }
    {
        Framer {
            stage: first_stage(framing, limit),
            line: [0; LINE_LIMIT],
            filled: 0,
            sizes: 0,
            limit,
        }
    }

    /// What the next byte of the source is.
    pub(crate) fn stage(&self) -> Stage
        ensures stage { result ≡ self.now.stage }
        ensures sound { IsTrue (is_sound result) }
    {
        self.stage
    }

    /// Whether the body has ended.
    pub(crate) fn is_over(&self) -> bool
        ensures { result ≡ is_some (ended self.now.stage) }
    {
        matches!(self.stage, Stage::Over(_))
    }

    /// How the body ended, if it has.
    pub(crate) fn ending(&self) -> Option<Ending>
        ensures { result ≡ ended self.now.stage }
    {
        match self.stage {
            Stage::Over(ending) => Some(ending),
            _ => None,
        }
    }

    // No byte is a byte of the body any more.
    fn end(&mut self, ending: Ending)
        ensures { self.new ≡ over self.old ending }
    {
        self.stage = Stage::Over(ending);
        self.filled = 0;
    }

    /// The source ended.
    pub(crate) fn cut(&mut self)
        ensures { self.new ≡ over self.old Ending.Truncated }
    {
        self.end(Ending::Truncated);
    }

    /// So many bytes of the body were read.
    pub(crate) fn take_data(&mut self, count: u64)
        requires { count ≤ data_left self.old.stage }
        ensures { self.new ≡ after_data self.old count }
    {
        match self.stage {
            Stage::Counted(left) => {
                if left == count {
                    self.end(Ending::Whole);
                } else {
                    self.stage = Stage::Counted(left - count);
                }
            }
            Stage::Chunk(left) => {
                if left == count {
                    self.stage = Stage::ChunkReturn;
                } else {
                    self.stage = Stage::Chunk(left - count);
                }
            }
            _ => {}
        }
    }

    // A chunk line was read, and told this size.
    fn take_size(&mut self, size: u64)
        ensures { self.new ≡ after_line self.old (Some size) }
    {
        match self.sizes.checked_add(size) {
            Some(sizes) if sizes <= self.limit => {
                self.filled = 0;
                if size == 0 {
                    self.stage = Stage::Trailer(0, TrailerLine::Nothing);
                } else {
                    self.stage = Stage::Chunk(size);
                    self.sizes = sizes;
                }
            }
            _ => self.end(Ending::TooLarge),
        }
    }

    // A byte of a chunk line.
    fn take_line_byte(&mut self, byte: u8)
        ensures { self.new ≡ line_byte self.old byte }
    {
        if self.filled == LINE_LIMIT {
            self.end(Ending::Bad);
            return;
        }
        self.line[self.filled] = byte;
        self.filled += 1;
        if byte == b'\n' {
            match read_chunk_line(&self.line[..self.filled]) {
                Some(size) => self.take_size(size),
                None => self.end(Ending::Bad),
            }
        }
    }

    // A byte of a trailer, of which so many came before.
    fn take_trailer_byte(&mut self, count: usize, line: TrailerLine, byte: u8)
        ensures { self.new ≡ trailer_byte self.old count line byte }
    {
        if TRAILER_LIMIT <= count {
            self.end(Ending::Bad);
            return;
        }
        let next = match line {
            TrailerLine::Text if byte == b'\n' => TrailerLine::Nothing,
            TrailerLine::Text => TrailerLine::Text,
            _ if byte == b'\n' => return self.end(Ending::Whole),
            TrailerLine::Nothing if byte == b'\r' => TrailerLine::Return,
            _ => TrailerLine::Text,
        };
        self.stage = Stage::Trailer(count + 1, next);
    }

    /// How many bytes may be read at once within a line, so that each of them comes where none of the body's does.
    pub(crate) fn room(&self) -> usize
        ensures { result ≡ min 256 (line_room self.now + 1) }
    {
        let most = match self.stage {
            Stage::ChunkLine => LINE_LIMIT - self.filled,
            Stage::Trailer(count, _) => TRAILER_LIMIT - count,
            _ => 0,
        };
        PIECE.min(most + 1)
    }

    /// A byte of the source that is none of the body's.
    pub(crate) fn take_byte(&mut self, byte: u8)
        requires { is_data self.old.stage ≡ false }
        ensures { self.new ≡ next_state self.old byte }
    {
        match self.stage {
            Stage::ChunkLine => self.take_line_byte(byte),
            Stage::ChunkReturn if byte == b'\r' => self.stage = Stage::ChunkFeed,
            Stage::ChunkFeed if byte == b'\n' => self.stage = Stage::ChunkLine,
            Stage::Trailer(count, line) => self.take_trailer_byte(count, line, byte),
            Stage::Over(_) => {}
            _ => self.end(Ending::Bad),
        }
    }
    /// Bytes of the source, of which none but the last is an LF.
    pub(crate) fn take_piece(&mut self, piece: &[u8])
        requires other { is_data self.old.stage ≡ false }
        requires open_yet { ended self.old.stage ≡ None }
        requires few { length piece.now ≤ line_room self.old + 1 }
        requires line { (k : ℕ) → k + 1 < length piece.now → get_or piece.now k 0 ≢ 10 }
        ensures { self.new ≡ after_bytes self.old piece.now }
    {
        for byte in piece {
            self.take_byte(*byte);
        }
    }
}

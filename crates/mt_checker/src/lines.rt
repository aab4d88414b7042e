//! The lines of a source, one by one.
ghost use Rattle.std.specs.Prelude.{◌≡◌, ◌≢◌, ◌+◌, ◌<◌, ℕ, [], ◌∷◌, ◌++◌, get_or, length, IfNone, IfSome};
ghost use Rattle.mt_checker.specs.Judge.{line_feed};
ghost use Rattle.mt_checker.specs.Sources.{Adds, CutsOff, HasFailed, IsClear};

use crate::limits::LONGEST_LINE;
use mt_edge::{ReadStep, Source};

/// How the reading of a line ended.
#[derive(Clone, Copy)]
pub(crate) enum LineRead {
    /// With its line feed.
    Whole,
    /// The source ended within it.
    Unended,
    /// The source ended before it.
    Nothing,
    /// It is longer than a line may be.
    TooLong,
    /// The source failed.
    Failed,
    /// Out of memory.
    Memory,
}

/// Whether text went behind a line.
#[derive(Clone, Copy)]
pub(crate) enum Room {
    /// It did.
    Fits,
    /// With it the line would be longer than one may be.
    TooLong,
    /// Out of memory.
    Memory,
}

// The bytes of a piece before the line feed that ends it, if one does.
fn line_end(piece: &[u8]) -> Option<&[u8]>
    requires some { 0 < length piece.now }
    requires line { (k : ℕ) → k + 1 < length piece.now → get_or piece.now k 0 ≢ 10 }
    ensures ended { IfSome result (λ t. (piece.now ≡ t.now ++ line_feed ∷ []) × IsClear t.now) }
    ensures begun { IfNone result (IsClear piece.now) }
{
    let last = piece.len() - 1;
    if piece[last] == b'\n' {
        Some(&piece[..last])
    } else {
        None
    }
}

// Text behind a line.
fn add_text(line: &mut Vec<u8>, text: &[u8]) -> Room
    requires { length line.old.items < LONGEST_LINE }
    ensures { Adds line.old.items text.now result line.new.items }
{
    if text.len() >= LONGEST_LINE as usize - line.len() {
        return Room::TooLong;
    }
    match line.extend_from_slice(text) {
        Ok(()) => Room::Fits,
        Err(_) => Room::Memory,
    }
}

/// Reads a line into a vector, in place of what that holds and without its line feed. Nothing behind it is read.
pub(crate) fn read_text<S: Source>(
    source: &mut S,
    buffer: &mut [u8],
    line: &mut Vec<u8>,
) -> LineRead
    requires { 0 < length buffer.old }
    ensures cuts { CutsOff result line.new.items (S.left source.old) (S.left source.new) }
    ensures faults { HasFailed result (S.read_faults source.old) (S.read_faults source.new) }
    ensures stays { S.source_stays source.old source.new }
{
    line.clear();
    'pieces: loop {
        match source.read_line(buffer) {
            ReadStep::Took(count) => {
                let piece = &buffer[..count];
                match line_end(piece) {
                    Some(text) => {
                        return match add_text(line, text) {
                            Room::Fits => LineRead::Whole,
                            Room::TooLong => LineRead::TooLong,
                            Room::Memory => LineRead::Memory,
                        };
                    }
                    None => match add_text(line, piece) {
                        Room::Fits => {}
                        Room::TooLong => return LineRead::TooLong,
                        Room::Memory => return LineRead::Memory,
                    },
                }
            }
            ReadStep::End if line.is_empty() => return LineRead::Nothing,
            ReadStep::End => return LineRead::Unended,
            ReadStep::Failed => return LineRead::Failed,
        }
    }
}

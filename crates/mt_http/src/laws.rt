//! Laws: what bytes are is one thing, however they come.
ghost use Rattle.std.specs.Prelude.{◌≡◌, ◌↔◌, ℕ, List, [], Some};
ghost use Rattle.httparse.specs.Grammar.{ChunkLine, ReadsChunkLine, chunk_size};
ghost use Rattle.mt_http.specs.Body.{WholeBodyIsLocal};
ghost use Rattle.mt_http.specs.Chunk.{chunk_line_size};
ghost use Rattle.mt_http.specs.Chunked.{ChunksAreRead, WholeIsChunks};
ghost use Rattle.mt_http.specs.Framing.{HeadsAreClean, PlaceIsOne};
ghost use Rattle.mt_http.specs.Messages.{InterimIsOne, MessagesAreOne};

/// No list of bytes has two places, so what a source is answered does not hang on how its bytes come.
pub fn place_is_one()
    ensures { PlaceIsOne }
{}

/// No list of bytes has two lists of messages, nor two places where no message stands any more.
pub fn messages_are_one()
    ensures { MessagesAreOne }
{}

/// No list of bytes has two interim replies before the body at its front.
pub fn interim_is_one()
    ensures { InterimIsOne }
{}

/// A line tells a size exactly where it is a chunk line of the parser's grammar, and then that line's size.
pub fn chunk_lines_are_of_the_grammar()
    ensures { (line : List ℕ) (n : ℕ) → (chunk_line_size line ≡ Some n) ↔ ((l : ChunkLine) × ReadsChunkLine line l [] × (chunk_size l ≡ n)) }
{}

/// What the grammar calls a chunked body (RFC 9112, section 7.1) is read as one.
pub fn chunks_are_read()
    ensures { ChunksAreRead }
{}

/// What is read as a whole chunked body is one in the grammar: each chunk line has at most 256 bytes, and the trailer at
/// most 65,536.
pub fn whole_is_chunks()
    ensures { WholeIsChunks }
{}

/// A head that is read has at most 100 fields. Each name is a token in lower case; each value has no control byte but
/// the tab, and no blank at either end.
pub fn heads_are_clean()
    ensures { HeadsAreClean }
{}

/// A body that is whole is told by the bytes up to its end alone, from any place of it on.
pub fn whole_body_is_local()
    ensures { WholeBodyIsLocal }
{}

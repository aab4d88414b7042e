//! Pieces of bodies.
ghost use Rattle.std.specs.Prelude.{◌≡◌};
ghost use Rattle.mt_codec.specs.Pieces.{is_piece};

use mt_types::LARGEST_PIECE;

/// Whether the bytes are a piece of a body: a 0, and 1 to 65,536 bytes behind it. Takes no memory.
pub fn is_piece(bytes: &[u8]) -> bool
    ensures { result ≡ is_piece bytes.now }
{
    match bytes {
        [] => false,
        [mark, rest @ ..] => *mark == 0 && !rest.is_empty() && rest.len() <= LARGEST_PIECE,
    }
}

//! A whole text, piece by piece, and a window over a text from a place of it on.
ghost use Rattle.std.specs.Prelude.{◌≡◌, ◌<◌, length, min};
ghost use Rattle.mt_jobtext.specs.Pieces.{IsShown, joined_pieces, pieces_of};
ghost use Rattle.mt_jobtext.specs.Places.{FillsFrom, IsPlace};
ghost use Rattle.mt_jobtext.specs.Windows.{Puts};

use crate::pieces::{Shown, put_piece};
use crate::window::Window;

/// A place of a text.
#[derive(Clone, Copy)]
pub(crate) struct Place {
    /// How many pieces lie behind it.
    pub(crate) next: usize,
    /// How many bytes of the next piece do.
    pub(crate) at: u64,
}

/// Adds a whole text.
pub(crate) fn put_all<B>(window: &mut Window, shown: &Shown<B>, count: usize)
    requires shown { IsShown shown.now }
    requires count { count ≡ length (pieces_of shown.now) }
    ensures { Puts (joined_pieces shown.now) window.old window.new }
{
    for next in 0..count {
        put_piece(window, shown, next);
    }
}

/// Fills a window with the text from a place on, at most so many bytes of it: the place behind them.
pub(crate) fn fill<B>(
    window: &mut Window,
    shown: &Shown<B>,
    count: usize,
    place: Place,
    most: usize,
) -> Place
    requires shown { IsShown shown.now }
    requires count { count ≡ length (pieces_of shown.now) }
    requires place { IsPlace (pieces_of shown.now) place }
    requires room { 0 < min window.old.size most }
    ensures fills { FillsFrom (pieces_of shown.now) place (min window.old.size most) window.new.got result }
    ensures size { window.new.size ≡ window.old.size }
{
    window.begin(place.at, most);
    for next in place.next..count {
        let at = window.skip();
        let room = window.room();
        put_piece(window, shown, next);
        if window.is_full() {
            return Place {
                next,
                at: at + room as u64,
            };
        }
    }
    Place { next: count, at: 0 }
}

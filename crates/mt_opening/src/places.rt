//! Where the pieces of bodies stand in a log: what an opening keeps of them, in memory of one entry a body.
ghost use Rattle.std.specs.Prelude.{◌≡◌, ◌≢◌, ◌<◌, ◌≤◌, ◌+◌, ◌*◌, ◌/◌, ◌%◌, ◌==◌, ◌&&◌, ◌||◌, nat_le, [], ◌∷◌, ◌++◌, ℕ, List, length, true, false, OnOk};
ghost use Rattle.mt_codec.specs.Pieces.{is_piece};
ghost use Rattle.mt_log.specs.Places.{end_of, from_place};
ghost use Rattle.mt_body.specs.Stored.{is_stored};
ghost use Rattle.mt_opening.specs.Places.{ArePlaces, bytes_ahead, bytes_from};

use mt_types::{Body, LARGEST_PIECE};
use std::alloc::{AllocError, Global};

/// The bytes of a full piece.
const PIECE: u64 = LARGEST_PIECE as u64;

/// The bytes that a full piece takes in the log: its record's head, its mark, and its own.
const RECORD: u64 = 21 + 1 + PIECE;

/// Pieces that stand one behind another in a log, all of them full but the last.
#[derive(Clone, Copy)]
pub struct Stretch {
    /// The place of the first.
    pub(crate) first: u64,
    /// The bytes of all.
    pub(crate) len: u64,
}

/// All pieces of a log, as stretches in the order of their places.
#[derive(Drop)]
pub struct Places {
    pub(crate) earlier: Vec<Stretch>,
    pub(crate) last: Stretch,
}

impl Stretch {
    // The bytes of the pieces from a place on; 0 where none of them stands there.
    fn bytes_from(&self, place: u64) -> u64
        ensures { result ≡ bytes_from place self.now }
    {
        if place < self.first || (place - self.first) % RECORD != 0 {
            return 0;
        }
        self.len
            .saturating_sub(PIECE * ((place - self.first) / RECORD))
    }

    // Whether a piece at this place goes on with the stretch: all its pieces are full, and it ends there.
    fn ends_full(&self, place: u64) -> bool
        ensures ends { result ≡ true → (self.now.len % 65536 ≡ 0) × (self.now.first + 65558 * (self.now.len / 65536) ≡ place) }
        ensures other { result ≡ false → self.now.len % 65536 ≡ 0 → self.now.first + 65558 * (self.now.len / 65536) ≢ place }
    {
        place >= self.first
            && self.len % PIECE == 0
            && (place - self.first) % RECORD == 0
            && (place - self.first) / RECORD == self.len / PIECE
    }
}

// Whether the pieces of so many bytes stand where those of a whole stretch do from there on.
fn fits(len: u64, ahead: u64) -> bool
    ensures { result ≡ (nat_le len ahead && ((len == ahead) || (len % 65536 == 0))) }
{
    len <= ahead && (len == ahead || len % PIECE == 0)
}

impl Places {
    /// Those of a log without payloads.
    pub fn new(alloc: Global) -> Places
        ensures { ArePlaces [] result.earlier.items result.last }
    {
        Places {
            earlier: Vec::new(alloc),
            last: Stretch { first: 0, len: 0 },
        }
    }

    /// Takes a piece of so many bytes that stands behind the payloads so far, at this place.
    pub fn add(&mut self, place: u64, len: u64) -> Result<(), AllocError>
        requires some { 0 < len }
        requires most { len ≤ 65536 }
        ensures { OnOk result ((ps : List (List ℕ)) (p : List ℕ) → ArePlaces ps self.old.earlier.items self.old.last → place ≡ end_of ps → is_piece p ≡ true → length p ≡ len + 1 →
            ArePlaces (ps ++ p ∷ []) self.new.earlier.items self.new.last) }
    {
        if self.last.ends_full(place) {
            self.last.len += len;
            return Ok(());
        }
        self.earlier.push(self.last)?;
        self.last = Stretch { first: place, len };
        Ok(())
    }

    // The bytes of the pieces from a place on, up to the first that isn't full.
    fn bytes_ahead(&self, place: u64) -> u64
        ensures { (ps : List (List ℕ)) → ArePlaces ps self.now.earlier.items self.now.last → result ≡ bytes_ahead (from_place place ps) }
    {
        if place >= self.last.first {
            return self.last.bytes_from(place);
        }
        let count = self.earlier.partition_point(|s| s.first <= place);
        if count == 0 {
            return 0;
        }
        self.earlier[count - 1].bytes_from(place)
    }

    /// Whether the pieces of a body stand in the log.
    pub fn has(&self, body: &Body) -> bool
        ensures { (ps : List (List ℕ)) → ArePlaces ps self.now.earlier.items self.now.last → result ≡ is_stored ps body.now }
    {
        if body.len == 0 {
            return body.first == 0;
        }
        fits(body.len, self.bytes_ahead(body.first))
    }
}

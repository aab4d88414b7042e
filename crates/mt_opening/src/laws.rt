//! Laws of histories.
ghost use Rattle.std.specs.Prelude.{◌≡◌, ◌++◌, ◌∷◌, [], ℕ, List, true, length};
ghost use Rattle.std.specs.List.{list_all};
ghost use Rattle.mt_codec.specs.Pieces.{is_piece};
ghost use Rattle.mt_model.specs.CommandStep.{replay};
ghost use Rattle.mt_disk.specs.Files.{Files};
ghost use Rattle.mt_model.specs.Lawful.{Lawful};
ghost use Rattle.mt_model.specs.Laws.{TakenFrom};
ghost use Rattle.mt_model.specs.State.{State};
ghost use Rattle.mt_opening.specs.Opening.{IsReadable, IsRefused};
ghost use Rattle.mt_opening.specs.declared.opening.Unreadable.{Unreadable};
ghost use Rattle.mt_opening.specs.History.{Adds, Bytes, History, IsForeignAt, IsHistoryOf};

/// A history goes on at its end: by pieces, which add nothing, and by what a payload adds.
pub fn history_goes_on()
    ensures more { (ps : List (List ℕ)) (base : State Bytes) (h added : History) (p : List ℕ) → IsHistoryOf ps base h → Adds ps (replay base h) p added
        → IsHistoryOf (ps ++ p ∷ []) base (h ++ added) }
    ensures pieces { (ps records : List (List ℕ)) (base : State Bytes) (h : History) → IsHistoryOf ps base h → list_all is_piece records ≡ true
        → IsHistoryOf (ps ++ records) base h }
{}

/// Payloads stand for one base and one history.
pub fn history_is_one()
    ensures { (ps : List (List ℕ)) (a b : State Bytes) (h k : History) → IsHistoryOf ps a h → IsHistoryOf ps b k → (a ≡ b) × (h ≡ k) }
{}

/// A log with a payload that is foreign stands for no history.
pub fn foreign_has_no_history()
    ensures { (ps : List (List ℕ)) (at : ℕ) (base : State Bytes) (h : History) → IsForeignAt ps at → ¬ (IsHistoryOf ps base h) }
{}

/// Each command of a history is well made, and allowed in the state before it, which has room for one more; so its last state is lawful.
pub fn history_is_taken()
    ensures taken { (ps : List (List ℕ)) (base : State Bytes) (h : History) → IsHistoryOf ps base h → TakenFrom length base h }
    ensures lawful { (ps : List (List ℕ)) (base : State Bytes) (h : History) → IsHistoryOf ps base h → Lawful (replay base h) }
{}

/// Files that are refused stand for no history.
pub fn refused_is_not_readable()
    ensures { (files : Files) (why : Unreadable) → IsRefused files why → ¬ (IsReadable files) }
{}

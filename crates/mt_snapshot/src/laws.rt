//! Laws of records of a snapshot.
ghost use Rattle.std.specs.Prelude.{◌≡◌, ◌≢◌, ◌<◌, ◌++◌, false, true, List, ℕ, None, length};
ghost use Rattle.std.specs.List.{AllByRecursion};
ghost use Rattle.mt_types.specs.declared.body.Body.{Body};
ghost use Rattle.mt_types.specs.declared.command.Command.{Command};
ghost use Rattle.mt_codec.specs.Pieces.{is_piece};
ghost use Rattle.mt_codec.specs.Spelling.{IsWithinLimits, spelling};
ghost use Rattle.mt_model.specs.CommandStep.{allowed, step};
ghost use Rattle.mt_model.specs.Keeping.{KeepsLimits};
ghost use Rattle.mt_model.specs.Lawful.{Lawful};
ghost use Rattle.mt_model.specs.Laws.{len_of};
ghost use Rattle.mt_model.specs.State.{State, first_state};
ghost use Rattle.mt_types.specs.declared.limits.TheConstants.{MOST_COMMANDS};
ghost use Rattle.mt_snapshot.specs.declared.record.SnapshotRecord.{SnapshotRecord};
ghost use Rattle.mt_snapshot.specs.Records.{FitsSnapshot, snapshot_spelling, undigested_snapshot};
ghost use Rattle.mt_snapshot.specs.Listing.{IsListable, records_of};
ghost use Rattle.mt_snapshot.specs.Values.{snapshot_with};

/// Records with one spelling are one, apart from digests, and digests are not spelled.
pub fn one_record_spelling()
    ensures alike { (r q : SnapshotRecord Body) → FitsSnapshot true r → FitsSnapshot true q → snapshot_spelling r ≡ snapshot_spelling q
        → undigested_snapshot r ≡ undigested_snapshot q }
    ensures digests { (r : SnapshotRecord Body) → snapshot_spelling (undigested_snapshot r) ≡ snapshot_spelling r }
{}

/// Bytes that begin with a record begin with that record alone: no spelling begins another.
pub fn no_record_begins_another()
    ensures { (r q : SnapshotRecord Body) (xs ys : List ℕ) → FitsSnapshot true r → FitsSnapshot true q
        → snapshot_spelling r ++ xs ≡ snapshot_spelling q ++ ys → (undigested_snapshot r ≡ undigested_snapshot q) × (xs ≡ ys) }
{}

/// A record is no piece of a body, and no command.
pub fn records_are_apart()
    ensures pieces { (r : SnapshotRecord Body) → is_piece (snapshot_spelling r) ≡ false }
    ensures commands { (r : SnapshotRecord Body) (c : Command Body) → snapshot_spelling r ≢ spelling c }
{}

/// The length of a spelling depends on no body.
pub fn sizes_are_same()
    ensures { (f : Body → Body) (r : SnapshotRecord Body) → length (snapshot_spelling (snapshot_with f r)) ≡ length (snapshot_spelling r) }
{}

/// What has a spelling is within its limits, so a record that was read may be written.
pub fn read_is_within_limits()
    ensures { (r : SnapshotRecord Body) → FitsSnapshot true r → FitsSnapshot false r }
{}

/// Of a state that is lawful, within the limits of values and listable, each record has a spelling.
pub fn states_are_listed()
    ensures { (s : State Body) → Lawful s → KeepsLimits s → IsListable s → AllByRecursion (FitsSnapshot false) (records_of s) }
{}

/// The first state can be listed, and each command that is allowed and within its limits keeps a lawful state listable, where there is
/// room for one more.
pub fn commands_keep_listable()
    ensures first { let s : State Body = first_state in IsListable s }
    ensures step { (s : State Body) (c : Command Body) → Lawful s → IsListable s → s.count < MOST_COMMANDS → IsWithinLimits c
        → allowed len_of s c ≡ None → IsListable (step s c) }
{}

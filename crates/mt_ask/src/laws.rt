//! Laws: what was written of an ask is read as what was asked.
ghost use Rattle.mt_ask.specs.Laws.{MarkersAreRead, QueriedTargetsAreRead, TargetsAreRead};

/// The target of a path is read as that path, alone and before a query.
pub fn targets_are_read()
    ensures alone { TargetsAreRead }
    ensures before_a_query { QueriedTargetsAreRead }
{}

/// The query of a listing asks the store for a page of at most 256 rows, from the marker on, where that is a text, or from the first.
pub fn markers_are_read()
    ensures { MarkersAreRead }
{}

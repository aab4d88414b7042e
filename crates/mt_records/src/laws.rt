//! Laws of records and fates.
ghost use Rattle.mt_records.specs.Laws.{FateOfAnyBytes, FateOfStored, FateOfWindows, FatesAreWellMade, NoneSeen, OverIsSaid, OverIsWellMade, RangedIsSaid, RangedIsWellMade, RangesAreWithin, ReadIsWritten, TornIsTorn, WindowsInTurn, WrittenIsRead};

/// What is written is read again, and nothing else is; a file is torn exactly where its end is none.
pub fn records_are_read_again()
    ensures again { WrittenIsRead }
    ensures only { ReadIsWritten }
    ensures torn { TornIsTorn }
{}

/// Windows that are looked at in turn are those that were seen, and at first there are none.
pub fn windows_in_turn()
    ensures none { NoneSeen }
    ensures more { WindowsInTurn }
{}

/// The ranges of a fate lie within the files and the standard output that were told.
pub fn ranges_are_within()
    ensures { RangesAreWithin }
{}

/// A fate has at most 4,095 records, and their places and names are paths of the account: over bytes, over ranges, and over whatever bytes
/// were read for the ranges. The numbers of its reducers have four bytes, and its standard error is a front.
pub fn fates_are_well_made()
    ensures bytes { FatesAreWellMade }
    ensures ranges { RangedIsWellMade }
    ensures said { RangedIsSaid }
    ensures over { OverIsWellMade }
    ensures over_said { OverIsSaid }
{}

/// The fate over ranges, each with its bytes, is the fate over bytes.
pub fn fates_of_windows()
    ensures { FateOfWindows }
{}

/// Where nothing is told of what was left but its sizes, an outcome of these sizes has the fate that was found, with whatever
/// bytes were read for its ranges: any function of ranges, or what was read record by record.
pub fn fates_are_honest()
    ensures any { FateOfAnyBytes }
    ensures stored { FateOfStored }
{}

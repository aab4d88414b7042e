//! Laws: what a search writes.
ghost use Rattle.std.specs.Prelude.{ℕ, List};
ghost use Rattle.mt_types.specs.declared.body.Body.{Body};
ghost use Rattle.mt_found.specs.Laws.{BelowIsUnder, FindEnds, FindEndsOverTheStore, FindFrontOverTheStore, FindListsAll, FindListsFront, FindOverTheStore, FoundWorked, LawfulIsSearchable};
ghost use Rattle.mt_found.specs.OnLink.{FindOnALink};

use mt_asked::asks_are_understood;

/// A search over the pages of rows writes the name of each row below its path, once, in the order of rows: over references as over the bytes.
pub fn find_lists_all()
    ensures references { FindListsAll Body }
    ensures bytes { FindListsAll (List ℕ) }
    ensures below { BelowIsUnder }
    ensures worked { FoundWorked }
{}

/// A search that stopped has written a front of that.
pub fn find_lists_a_front()
    ensures references { FindListsFront Body }
    ensures bytes { FindListsFront (List ℕ) }
{}

/// A search over the pages of rows comes to its end: no run asks for more pages than two for each row below its path, and one, and each goes on.
pub fn find_ends()
    ensures references { FindEnds Body }
    ensures bytes { FindEnds (List ℕ) }
{}

/// The rows of a lawful state within its limits can be searched, over references as over the bytes.
pub fn lawful_is_searchable()
    ensures references { LawfulIsSearchable Body }
    ensures bytes { LawfulIsSearchable (List ℕ) }
{}

/// A search over a store that stays in one state, by the store's own answers to the requests that the client prints, writes all that is below
/// its path, or a front of it where it stopped, and comes to its end.
pub fn find_over_the_store()
    ensures lists { FindOverTheStore }
    ensures front { FindFrontOverTheStore }
    ensures ends { FindEndsOverTheStore }
{
    asks_are_understood();
}

/// A run of the client that searches and is done has written all that is below its path, where what came on its link was the store's own answers,
/// all in one state.
pub fn find_on_a_link()
    ensures { FindOnALink }
{
    find_over_the_store();
}

//! The headline as a law, and laws of answers that it needs.
ghost use Rattle.mt_opening.specs.History.{Bytes};
ghost use Rattle.mt_headline.specs.Gets.{GetGives, GetGivesNothing};
ghost use Rattle.mt_headline.specs.Headline.{ChainsMeetHeadline};
ghost use Rattle.mt_headline.specs.Position.{PositionsAreNamed};
ghost use Rattle.mt_headline.specs.Refusals.{ErrorsAddNothing, RefusedJobsAreErrors};

use mt_spawn::Spawner;

/// Of runs one after the other from a new store on: each answer is that of the account at the position that it names, what an answer
/// reported is there permanently, and each finished job is what its phases mean over its inputs.
pub fn headline<P: Spawner>()
    ensures { (children : P.Rule) (login : Bytes) → ChainsMeetHeadline login (P.gives children) }
{}

/// The last fields of each reply are its date and the number of commands after it.
pub fn positions_are_named()
    ensures { PositionsAreNamed }
{}

/// An answer with a status of 400 or above adds no command, and a refused request about jobs is answered so.
pub fn errors_add_nothing()
    ensures all { ErrorsAddNothing }
    ensures jobs { RefusedJobsAreErrors }
{}

/// A GET of a path, without conditions and a range, gives all bytes of the object that is there, or says that nothing is.
pub fn get_gives()
    ensures object { GetGives }
    ensures nothing { GetGivesNothing }
{}

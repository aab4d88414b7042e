//! A worked chain, and runs that are no chain.
ghost use Rattle.mt_headline.specs.Worked.{AnswersOldState, IsWorkedChain, ListsUncommitted, LosesCommand, LosesOwn, WorkedReplies};

use mt_spawn::Spawner;

/// A PUT and a GET, whose disk is gone afterwards, and the GET again in the next run: two lives and three replies, which are a chain.
pub fn put_then_get_twice<P: Spawner>()
    ensures replies { WorkedReplies }
    ensures chain { (children : P.Rule) → IsWorkedChain (P.gives children) }
{}

/// No chain: a later run, or the run itself, leaves files without a command that was reported; a reply is that of another state; the
/// outputs of a job list one of a task that is not committed.
pub fn wrong_chains<P: Spawner>()
    ensures lost { (children : P.Rule) → LosesCommand (P.gives children) }
    ensures own { (children : P.Rule) → LosesOwn (P.gives children) }
    ensures state { (children : P.Rule) → AnswersOldState (P.gives children) }
    ensures output { (children : P.Rule) → ListsUncommitted (P.gives children) }
{}

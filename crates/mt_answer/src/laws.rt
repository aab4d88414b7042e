//! Laws: answers over references are those over the bytes that they stand for, and what isn't refused may be done.
ghost use Rattle.mt_answer.specs.Whole.{AddsOneAtMost, AnswersAreNoCommits, AnswersAreSteps, AnswersHaveTexts};
ghost use Rattle.mt_answer.specs.Laws.{AddedIsRead, AnswersAreRead, BodyWithoutRoom, DoneIsAllowed, FullIsRead, LawfulIsListable, LinkIsTold, PutIsTold, RefusalsAreRead, RefusedIsRead, ShownIsRead, StaysRefused, StoringIsRead};

/// Over a state of references a request is answered as over the bytes that are read for them: the same reply, the same command and
/// the same growth, by their bodies' bytes.
pub fn answers_are_read()
    ensures answer { AnswersAreRead }
    ensures refused { RefusedIsRead }
    ensures full { BodyWithoutRoom }
{}

/// The same by what was done: nothing is added, a command is added, or it has no room.
pub fn done_is_read()
    ensures shown { ShownIsRead }
    ensures added { AddedIsRead }
    ensures full { FullIsRead }
{}

/// A request is refused for the same cause over references and over bytes, and its body is stored alike.
pub fn refusals_are_read()
    ensures refusal { RefusalsAreRead }
    ensures storing { StoringIsRead }
{}

/// What is refused before the digest of the body is known is refused with any digest.
pub fn stays_refused()
    ensures { StaysRefused }
{}

/// The account takes the command of a request that isn't refused.
pub fn done_is_allowed()
    ensures { DoneIsAllowed }
{}

/// A put is told the number, the moment and the digest of the object that then stands at its path, and so is a link.
pub fn puts_are_told()
    ensures put { PutIsTold }
    ensures link { LinkIsTold }
{}

/// The rows of a lawful state within its limits can be told in replies and on pages.
pub fn lawful_is_listable()
    ensures { LawfulIsListable }
{}

/// A request adds one command at most.
pub fn answers_add_one()
    ensures { AddsOneAtMost }
{}

/// What a request of any kind adds is a step of the account: well made, allowed, with room for one more, and honest though no child gives
/// anything, so whatever children give (`honest_answer` of proofs/Steps).
pub fn answers_are_steps()
    ensures { AnswersAreSteps }
{}

/// What a request of any kind adds is neither the commit of a task nor that of an upload.
pub fn answers_are_no_commits()
    ensures { AnswersAreNoCommits }
{}

/// A job that a request of any kind ends leaves its five texts, as it is then.
pub fn answers_have_their_texts()
    ensures { AnswersHaveTexts }
{}

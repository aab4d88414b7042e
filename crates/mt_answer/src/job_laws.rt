//! Laws of what is asked of jobs: answers over references are those over the bytes that they stand for, what isn't refused may be done, and
//! what is told of jobs.
ghost use Rattle.mt_answer.specs.JobLaws.{CancelsHaveTexts, JobAddedIsRead, JobAnswersAreRead, JobDoneIsAllowed, JobFullIsRead, JobNumberIsOne, JobRefusalsAreRead, JobRefusedIsRead, JobShownIsRead, LawfulIsShowable, LinesAreSplit, OutputsAreTold, PostedIsWithin};

/// Over a state of references what is asked of jobs is refused for the same cause as over the bytes that are read for them, and answered
/// the same: the same reply, the same command and the same growth, by their bodies' bytes.
pub fn job_answers_are_read()
    ensures refusal { JobRefusalsAreRead }
    ensures answer { JobAnswersAreRead }
{}

/// The same by what was done: it is refused, nothing is added, a command is added, or it has no room.
pub fn job_done_is_read()
    ensures refused { JobRefusedIsRead }
    ensures shown { JobShownIsRead }
    ensures added { JobAddedIsRead }
    ensures full { JobFullIsRead }
{}

/// The account takes the command of what isn't refused, and a job that it changes is told by a number of jobs.
pub fn job_done_is_allowed()
    ensures allowed { JobDoneIsAllowed }
    ensures number { JobNumberIsOne }
{}

/// A job that a request ends leaves its five texts, as it is then.
pub fn cancels_have_their_texts()
    ensures { CancelsHaveTexts }
{}

/// A GET of the outputs of a job that isn't refused is told their names, and adds nothing.
pub fn outputs_are_told()
    ensures { OutputsAreTold }
{}

/// In a lawful state within its limits each job can be told.
pub fn lawful_is_showable()
    ensures { LawfulIsShowable }
{}

/// What a body of fewer than 2^32 bytes asks of jobs is within the limits of a command: a document is one, and lines are at most 1,000,000, each
/// a path or a text of one line. A carriage return is dropped before a line feed alone, and one only.
pub fn posted_is_within()
    ensures within { PostedIsWithin }
    ensures lines { LinesAreSplit }
{}

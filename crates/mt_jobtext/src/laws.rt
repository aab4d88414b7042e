//! Laws of the texts.
ghost use Rattle.mt_jobtext.specs.Archives.{ArchivesGrow, ArchivesOfFronts, ArchivesOfRests};
ghost use Rattle.mt_jobtext.specs.Laws.{ArchivesOfNoBody, JobsAreShowable, TextsOfNoBody};

/// No text looks at bodies: a job over the bytes that its bodies stand for has the texts of the job itself.
pub fn texts_look_at_no_bodies()
    ensures texts { TextsOfNoBody }
    ensures archives { ArchivesOfNoBody }
{}

/// Where each job that a history ends leaves its texts, a history that goes on so has them, each front has them, and each rest.
pub fn archives_are_texts()
    ensures grows { ArchivesGrow }
    ensures fronts { ArchivesOfFronts }
    ensures rests { ArchivesOfRests }
{}

/// Each job of a lawful state within its limits has texts: its number has an identifier, and its moments dates.
pub fn lawful_is_showable()
    ensures { JobsAreShowable }
{}

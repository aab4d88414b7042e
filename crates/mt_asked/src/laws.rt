//! Laws: a client's request is read as what its words ask for.
ghost use Rattle.mt_asked.specs.Laws.{AsksAreUnderstood, ChangesOfJobsAreRefused, HeadsAreRead, HeadsStand};

/// The head that words make is one request head of the grammar (RFC 9112, section 3), and the store reads it as what the words ask for.
pub fn asks_are_understood()
    ensures read { HeadsAreRead }
    ensures stands { HeadsStand }
    ensures asked { AsksAreUnderstood }
    ensures refused { ChangesOfJobsAreRefused }
{}

//! Laws: the certificate of a finished job adds up, and its text is accepted.
ghost use Rattle.std.specs.Prelude.{List, ℕ};
ghost use Rattle.mt_model.specs.Types.{Body};
ghost use Rattle.mt_cert.specs.Accepting.{CertifyIsAccepted, CertifyIsWritten};
ghost use Rattle.mt_cert.specs.Certifying.{CertifyAddsUp, sum_of_body, sum_of_bytes};

/// The certificate of a job that is sound and complete adds up: its listed tasks, taken as true, make its outputs. It holds of
/// a job over references as over the bytes themselves.
pub fn certify_adds_up()
    ensures references { CertifyAddsUp Body sum_of_body }
    ensures bytes { CertifyAddsUp (List ℕ) sum_of_bytes }
{}

/// The parts of each line of the certificate of a lawful job are what they are to be, so that each is read again from its text.
pub fn certify_is_written()
    ensures references { CertifyIsWritten Body sum_of_body }
    ensures bytes { CertifyIsWritten (List ℕ) sum_of_bytes }
{}

/// The text of the certificate of a lawful, complete job is accepted, where its lines are within the limits of certificates.
pub fn certify_is_accepted()
    ensures references { CertifyIsAccepted Body sum_of_body }
    ensures bytes { CertifyIsAccepted (List ℕ) sum_of_bytes }
{}

//! Laws of certificates of jobs in a store.
ghost use Rattle.mt_certify.specs.Certified.{CertificatesAreRead, FinishedIsAccepted};

/// The certificate of a job over references, by the digests and lengths that these keep, is that of the job over the bytes that stand in
/// the log for them.
pub fn certificates_are_read()
    ensures { CertificatesAreRead }
{}

/// Where it is told that its lines fit, the certificate of a finished job of a lawful state, over the bytes, is accepted.
pub fn finished_is_accepted()
    ensures { FinishedIsAccepted }
{}

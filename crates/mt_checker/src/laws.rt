//! Laws: the judgement is exact, and what is written of a certificate is accepted.
ghost use Rattle.mt_checker.specs.Judge.{CheckerExact};
ghost use Rattle.mt_checker.specs.Texts.{WrittenIsAccepted};

/// Bytes are accepted exactly where they are the lines of a certificate that adds up.
pub fn checker_exact()
    ensures { CheckerExact }
{}

/// What is written of a certificate that adds up is accepted, where its lines are within the limits and their parts are what
/// they are to be.
pub fn written_is_accepted()
    ensures { WrittenIsAccepted }
{}

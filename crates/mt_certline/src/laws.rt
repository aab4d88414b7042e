//! Laws: what is written is read again, and the certificate of a map job, worked out.
ghost use Rattle.mt_certline.specs.Laws.{LinesReadAgain, TextsAreLines};
ghost use Rattle.mt_certline.specs.Worked.{IsWorked};

/// Each line is read from its text, which has no line feed.
pub fn lines_read_again()
    ensures again { LinesReadAgain }
    ensures line { TextsAreLines }
{}

/// The certificate of a map job over two inputs follows line by line, and does not where outputs are exchanged, or where a
/// task comes twice or is left out.
pub fn map_job_is_worked()
    ensures { IsWorked }
{}

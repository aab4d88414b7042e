//! What is asked of jobs.
ghost use Rattle.std.specs.Prelude.{◌≡◌};

use crate::query::Page;
use mt_types::{JobStand, LiveText};

/// What is asked of jobs. A job is told by its number, and `None` is a name that no job can have.
#[derive(Debug, PartialEq, Eq, Drop)]
pub enum JobDoing {
    /// The jobs that run, or those that are done, are to be listed.
    ListJobs {
        /// Which.
        stand: JobStand,
        /// The page of them; none where the query's limit is none.
        page: Option<Page>,
    },
    /// A job is to be made of the document that the body is.
    MakeJob,
    /// The lines of the body are to be added to the input of a job.
    PostLines {
        /// Which job.
        job: Option<u64>,
    },
    /// The input of a job is to end.
    EndInput {
        /// Which job.
        job: Option<u64>,
    },
    /// A job is to end before it is done.
    CancelJob {
        /// Which job.
        job: Option<u64>,
    },
    /// A text of a job is to be shown.
    LookLive {
        /// Which job.
        job: Option<u64>,
        /// Which text.
        text: LiveText,
    },
}

impl JobDoing {
    ghost use Rattle.std.specs.Prelude.{◌≡◌};
    ghost use Rattle.mt_request.specs.Requests.{is_posting};

    /// Whether the body is looked at: a document, or lines. Any other is dropped.
    pub fn is_posting(&self) -> bool
        ensures { result ≡ is_posting self.now }
    {
        match self {
            JobDoing::MakeJob | JobDoing::PostLines { .. } => true,
            JobDoing::ListJobs { .. }
            | JobDoing::EndInput { .. }
            | JobDoing::CancelJob { .. }
            | JobDoing::LookLive { .. } => false,
        }
    }
}

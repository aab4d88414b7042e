//! What words ask for.
ghost use Rattle.std.specs.Prelude.{◌≡◌};
ghost use Rattle.mt_ask.specs.Requests.{carries_source, has_length, is_listing};

use mt_base::{Bytes, Text};
use mt_path::Path;

/// What is asked of a store. A job is told by its number, below 2^62.
#[derive(Debug, PartialEq, Eq, Drop)]
pub enum Ask {
    /// `mls PATH`: the names in a directory.
    List(Path),
    /// `mfind PATH`: the names of all that is below a directory.
    Find(Path),
    /// `mget PATH`: the bytes of an object.
    Get(Path),
    /// `mput PATH`: the source is to be stored as an object.
    Put(Path),
    /// `mmkdir PATH`: a directory is to be made.
    MakeDirectory(Path),
    /// `mrm PATH`: what is at a path is to be deleted.
    Remove(Path),
    /// `mln FROM PATH`: an object is to be linked.
    Link {
        /// The object.
        source: Path,
        /// Where the link is to stand.
        path: Path,
    },
    /// `mjob create`: a job is to be made of the document that the source is.
    CreateJob,
    /// `mjob add ID`: the lines of the source are to be added to the input of a job.
    AddInputs(u64),
    /// `mjob end ID`: the input of a job is to end.
    EndInput(u64),
    /// `mjob cancel ID`: a job is to end before it is done.
    CancelJob(u64),
    /// `mjob get ID`: how a job stands.
    JobStatus(u64),
    /// `mjob out ID`: the names of the outputs of a job.
    JobOutputs(u64),
}

/// What the words of a client say.
#[derive(Debug, PartialEq, Eq, Drop)]
pub struct Words {
    /// Where the store listens, as it was given: not empty, without blanks and control characters.
    pub url: Text,
    /// The account's login, of 1 to 64 letters, digits, `_` or `-`.
    pub login: Text,
    /// What is asked for.
    pub ask: Ask,
}

/// A page of a directory: its first 256 rows, or those from a name on.
#[derive(Debug, PartialEq, Eq, Drop)]
pub struct PageAsk {
    /// The directory.
    pub directory: Path,
    /// The name that the page begins with, or the next one; none for the first page.
    pub marker: Option<Bytes>,
}

impl Ask {
    /// Whether the source of the words is the body of their request.
    pub fn carries_source(&self) -> bool
        ensures { result ≡ carries_source self.now }
    {
        match self {
            Ask::Put(_) | Ask::CreateJob | Ask::AddInputs(_) => true,
            Ask::List(_)
            | Ask::Find(_)
            | Ask::Get(_)
            | Ask::MakeDirectory(_)
            | Ask::Remove(_)
            | Ask::Link { .. }
            | Ask::EndInput(_)
            | Ask::CancelJob(_)
            | Ask::JobStatus(_)
            | Ask::JobOutputs(_) => false,
        }
    }

    /// Whether it is asked by pages, each with a request of its own.
    pub fn is_listing(&self) -> bool
        ensures { result ≡ is_listing self.now }
    {
        match self {
            Ask::List(_) | Ask::Find(_) => true,
            Ask::Get(_)
            | Ask::Put(_)
            | Ask::MakeDirectory(_)
            | Ask::Remove(_)
            | Ask::Link { .. }
            | Ask::CreateJob
            | Ask::AddInputs(_)
            | Ask::EndInput(_)
            | Ask::CancelJob(_)
            | Ask::JobStatus(_)
            | Ask::JobOutputs(_) => false,
        }
    }

    // Whether its request tells the length of a body.
    pub(crate) fn has_length(&self) -> bool
        ensures { result ≡ has_length self.now }
    {
        match self {
            Ask::Put(_)
            | Ask::MakeDirectory(_)
            | Ask::Link { .. }
            | Ask::CreateJob
            | Ask::AddInputs(_)
            | Ask::EndInput(_)
            | Ask::CancelJob(_) => true,
            Ask::List(_)
            | Ask::Find(_)
            | Ask::Get(_)
            | Ask::Remove(_)
            | Ask::JobStatus(_)
            | Ask::JobOutputs(_) => false,
        }
    }
}

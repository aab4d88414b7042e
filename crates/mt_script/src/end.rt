//! How a run of a client ends.
ghost use Rattle.std.specs.Prelude.{◌≡◌};
ghost use Rattle.mt_script.specs.Ends.{code_of};

use mt_base::Bytes;

/// How a run of a client ends.
#[derive(Clone, Copy, Debug, PartialEq, Eq)]
pub enum ClientEnd {
    /// What the words asked for is done.
    Done,
    /// The words are not of the grammar.
    Usage,
    /// The store refused, and said why; or what was to be listed is no directory.
    Refused,
    /// The source failed, and counted it.
    SourceFault,
    /// The sink failed, and counted it.
    SinkFault,
    /// The link failed, and counted it.
    LinkFault,
    /// The link ended before its reply, or what came is none that the words can have.
    BadReply,
    /// As many requests as a run may make were answered, and another is due.
    TooManyRequests,
    /// The source has more bytes than a request may carry.
    InputTooLarge,
    /// Out of memory.
    Memory,
}

/// What a reply ends a run with.
#[derive(Debug, PartialEq, Eq, Drop)]
pub struct Closing {
    /// What is still to be written.
    pub text: Bytes,
    /// How the run ends behind that.
    pub end: ClientEnd,
}

impl ClientEnd {
    /// The status of a program that ends so: 0 to 9, for each end another.
    pub fn code(self) -> u8
        ensures { result ≡ code_of self }
    {
        match self {
            ClientEnd::Done => 0,
            ClientEnd::Usage => 1,
            ClientEnd::Refused => 2,
            ClientEnd::SourceFault => 3,
            ClientEnd::SinkFault => 4,
            ClientEnd::LinkFault => 5,
            ClientEnd::BadReply => 6,
            ClientEnd::TooManyRequests => 7,
            ClientEnd::Memory => 8,
            ClientEnd::InputTooLarge => 9,
        }
    }
}

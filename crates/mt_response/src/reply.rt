//! Replies as they are read from a link.
use mt_types::Fields;

/// The head of a reply (RFC 9112, section 4).
#[derive(Debug, PartialEq, Eq, Drop)]
pub struct ReplyHead {
    /// The status, three digits: 0 to 999.
    pub status: u16,
    /// The fields in the order in which they came, at most 100: names in lower case, values without the blanks around them.
    pub fields: Fields,
}

/// Why no reply was read.
#[derive(Clone, Copy, Debug, PartialEq, Eq)]
pub enum ReplyReadEnd {
    /// No reply stands there: the link ended before, or what came is none.
    NoReply,
    /// The link failed, and counted it.
    LinkFault,
    /// Out of memory.
    Memory,
}

/// How far a body was copied.
#[derive(Clone, Copy, Debug, PartialEq, Eq)]
pub enum Copied {
    /// All of it.
    Whole,
    /// The link ended behind so many bytes, which were handed on.
    Ended(u64),
    /// The link failed behind so many bytes, which were handed on, and counted it.
    LinkFault(u64),
    /// The sink failed, and counted it. A front of what was read stands in it.
    SinkFault,
}

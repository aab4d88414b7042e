//! Requests as they are read from a source.
use crate::framing::Framing;
use mt_base::{Bytes, Text};
use mt_types::Fields;

/// The head of a request (RFC 9112, sections 3 and 5).
#[derive(Debug, PartialEq, Eq, Drop)]
pub struct Head {
    /// The method, in the case in which it came.
    pub method: Text,
    /// The request target, as it came.
    pub target: Bytes,
    /// The minor version of HTTP/1: 0 or 1.
    pub minor: u8,
    /// The fields in the order in which they came, at most 100.
    pub fields: Fields,
    /// How the length of the body is told.
    pub framing: Framing,
}

/// A request (RFC 9112, section 2.1).
#[derive(Debug, PartialEq, Eq, Drop)]
pub struct Message {
    /// The method, in the case in which it came.
    pub method: Text,
    /// The request target, as it came.
    pub target: Bytes,
    /// The minor version of HTTP/1: 0 or 1.
    pub minor: u8,
    /// The fields in the order in which they came, at most 100.
    pub fields: Fields,
    /// The body, of no more bytes than [`limit_of`](crate::limit_of) its head.
    pub body: Bytes,
}

/// Why no message was read.
#[derive(Clone, Copy, Debug, PartialEq, Eq)]
pub enum MessageEnd {
    /// The source ended before a message began.
    End,
    /// The source ended within a message.
    Truncated,
    /// The head is too long, is no request head, or its framing is refused; or the body is no chunked body.
    Bad,
    /// The body is longer than its limit.
    TooLarge,
    /// The source failed, and counted it.
    SourceFault,
    /// Out of memory.
    Memory,
}

/// How a body ended.
#[derive(Clone, Copy, Debug, PartialEq, Eq)]
pub enum Ending {
    /// With its last byte.
    Whole,
    /// The source ended before.
    Truncated,
    /// It is no chunked body.
    Bad,
    /// Its length, or the chunk sizes together, are above the limit.
    TooLarge,
}

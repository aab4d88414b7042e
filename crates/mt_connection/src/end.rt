//! How a connection ends, and what one message more does to it.

/// How a connection ended.
#[derive(Clone, Copy, Debug, PartialEq, Eq)]
pub enum ConnectionEnd {
    /// The source ended, or the last message closes.
    Ended,
    /// As many messages as one connection has were answered.
    Many,
    /// The source ended within a message.
    Truncated,
    /// No message stands at the place, or one that is too large. The refusal was written whole.
    Refused,
    /// The source failed, and counted it.
    SourceFault,
    /// The sink failed, and counted it. A front of the last reply was written.
    SinkFault,
    /// The last message was answered, and the command of the turn behind it has no room: nothing of that was written.
    Full,
    /// The disk failed, and counted it.
    Disk,
    /// Out of memory.
    Memory,
}

/// What one more message did to a connection.
#[derive(Clone, Copy, Debug, PartialEq, Eq)]
pub enum Step {
    /// It was answered, and whether it closes.
    Went(bool),
    /// The connection is over.
    Over(ConnectionEnd),
}

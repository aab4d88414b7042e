//! The piece of a drill that is due.

/// The piece of a drill's messages that is due.
#[derive(Clone, Copy, Debug, PartialEq, Eq)]
pub(crate) enum Due {
    /// A directory is put.
    Directory(u32),
    /// An object is put.
    Object(u32),
    /// The job is created.
    Job,
    /// The head of the message that adds the inputs.
    Inputs,
    /// One of the inputs.
    Line(u32),
    /// The input ends.
    End,
    /// Nothing is left.
    Over,
}

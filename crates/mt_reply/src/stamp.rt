//! What every reply says.

/// What every reply says.
#[derive(Clone, Copy, Debug, PartialEq, Eq)]
pub struct Stamp {
    /// The number of commands of the log at which it was answered, after its own command.
    pub position: u64,
    /// The moment of the request, in seconds since 1970.
    pub moment: u64,
    /// Whether the connection ends behind it.
    pub closes: bool,
}

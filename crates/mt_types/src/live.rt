//! What is told of jobs: their texts, and which of them run.

/// A text of a job.
#[derive(Clone, Copy, Debug, PartialEq, Eq)]
pub enum LiveText {
    /// The names of its inputs, one a line.
    In,
    /// The names of its outputs, one a line, in the order in which they were committed.
    Out,
    /// The posted lines that named no object, and then what failed map tasks read, one a line.
    Fail,
    /// The same and the failed reducers, a JSON object a line that says why.
    Err,
    /// Its committed tasks in the order of their commits, a JSON object a line.
    Tasks,
    /// The job as one JSON object, without a line end.
    Status,
}

/// Whether a job runs.
#[derive(Clone, Copy, Debug, PartialEq, Eq)]
pub enum JobStand {
    /// It is neither finished nor cancelled.
    Running,
    /// It is finished or cancelled.
    Done,
}

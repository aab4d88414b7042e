//! A request as it was read from its head.
use mt_cond::Conditions;
use mt_reply::Stamp;
use mt_request::{JobRequest, Request};

/// What is asked of objects and directories, as it was read from its head.
#[derive(Drop)]
pub(crate) struct Call {
    /// What is asked for.
    pub request: Request,
    /// The conditions under which it is asked for.
    pub conditions: Conditions,
    /// What every reply to it says, with the position before it.
    pub stamp: Stamp,
}

/// What is asked of jobs, as it was read from its head.
#[derive(Drop)]
pub(crate) struct JobCall {
    /// What is asked for.
    pub request: JobRequest,
    /// What every reply to it says, with the position before it.
    pub stamp: Stamp,
}

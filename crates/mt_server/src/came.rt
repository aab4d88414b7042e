//! What comes at a door.
use crate::status::ServeEnd;
use mt_connection::ConnectionEnd;
use mt_runner::Turn;

/// What a call at the door came to.
#[derive(Clone, Copy, Debug, PartialEq, Eq)]
pub(crate) enum Came {
    /// A link, which had its turn and was given back: whether it was taken for the first time, whether it is over, and how the turn
    /// ended.
    Had {
        first: bool,
        over: bool,
        end: ConnectionEnd,
    },
    /// No link: the door was woken.
    Woke,
    /// No link: the door failed, and counted it.
    NoLink,
}

/// What an event came to: a call at the door, and the drain behind it.
#[derive(Clone, Copy, Debug, PartialEq, Eq)]
pub(crate) enum Happened {
    /// It did not break: whether a link was taken for the first time, whether one is over, and how the drain ended.
    Went { first: bool, over: bool, last: Turn },
    /// It broke, and ends the serve so.
    Broke(ServeEnd),
    /// No link: the door failed, and counted it.
    NoLink,
}

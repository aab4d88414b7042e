//! The real ends of the store: files, streams, sockets and the system's clock, each over its trait. None tells what it holds.
//!
//! - `file_disk`: the three files of a store; `folder`: their folder, which belongs to one program; `failure`: why a call failed;
//!   `progress`: what a start says.
//! - `counted`: standard input and output, or any other reader and writer, with counted faults; `patient`: streams that wait.
//! - `tcp_door`: the clients that connect; `set`: what is waited for at once; `places`: the links that are not in their turn;
//!   `tcp_link`: one of them, over `wire`, its socket, and `ahead`, what came of it before it was asked for.
//! - `wakes`: what wakes a door beside its clients.
//! - `turn`: how long one link may hold the others; `whole`: whether a message has come whole; `limits`, `readiness`: how long a
//!   client is waited for, and how.
//! - `system_clock`: the moment that the system tells. `standard`: the numbers of standard input, output and error. `words`: those
//!   that a program was called with.
//! - `specs/Device`: what a device hands on. `specs/Heads`: where the head of a message ends.
#![tactic(auto)]

mod ahead;
mod counted;
mod failure;
mod file_disk;
mod folder;
mod limits;
mod patient;
mod places;
mod progress;
mod readiness;
mod set;
mod standard;
mod system_clock;
mod tcp_door;
mod tcp_link;
mod turn;
mod wakes;
mod whole;
mod wire;
mod words;

pub use counted::{Counted, StdSink, StdSource};
pub use failure::{Failure, FileCall};
pub use file_disk::FileDisk;
pub use limits::Limits;
pub use patient::Patient;
pub use standard::Standard;
pub use system_clock::SystemClock;
pub use tcp_door::TcpDoor;
pub use tcp_link::TcpLink;
pub use wakes::Wakes;
pub use words::words_of;

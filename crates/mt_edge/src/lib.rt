//! The outside: what is read from, written to and asked, as traits with a written meaning.
//!
//! - `source`, `sink`, `both`: streams of bytes, with counted faults.
//! - `clock`, `door`: moments, and links to serve.
//! - `whole`, `joined`: a write of a whole piece, and a source and a sink that lie apart as one link.
//! - `mem_source`, `mem_sink`, `mem_link`, `mem_door`, `mem_clock`, `never_fails`, `fixed_clock`, `no_door`: the forms
//!   in memory.
//! - `specs/Stream`, `specs/Doors`, `specs/Memory`, `specs/MemoryDoor`, `specs/Clocks`: what each call does, by its answer.
#![tactic(auto)]

mod both;
mod clock;
mod door;
mod fixed_clock;
mod joined;
mod mem_clock;
mod mem_door;
mod mem_link;
mod mem_sink;
mod mem_source;
mod never_fails;
mod next;
mod no_door;
mod script;
mod sink;
mod source;
mod whole;

pub use both::Both;
pub use clock::Clock;
pub use door::Door;
pub use fixed_clock::FixedClock;
pub use joined::Joined;
pub use mem_clock::MemClock;
pub use mem_door::MemDoor;
pub use mem_link::MemLink;
pub use mem_sink::MemSink;
pub use mem_source::MemSource;
pub use mt_base::LAST_MOMENT;
pub use never_fails::NeverFails;
pub use next::Next;
pub use no_door::NoDoor;
pub use sink::{Sink, WriteStep};
pub use source::{ReadStep, Source};
pub use whole::{SinkFault, write_all};

//! What a drill asks a store for, and the work of its tasks, in memory.
//!
//! - `source`: the drill's messages as a source. `messages`: them, piece by piece. `due`: the piece that is due.
//! - `work`: the two commands of the drill's job.
#![tactic(auto)]

mod due;
mod messages;
mod source;
mod work;

pub use messages::MOST_OBJECTS;
pub use source::GenSource;
pub use work::DrillWork;

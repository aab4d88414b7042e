//! A log of payloads on a disk: each append is whole on the disk before it counts, and a crash at any moment
//! leaves the payloads of before, with the new one or without.
//!
//! - `log`: the value that callers hold.
//! - `open`: reads the log that is there, or makes one. `choose` finds its file, `scan` reads it through a `window`,
//!   `new_log` makes one.
//! - `append`: adds a payload; `stage` writes it behind the closed gate, and `publish` opens the gate.
//! - `run`: adds many at once; `lay` writes them.
//! - `read`: payloads by their places.
//! - `specs/LogImage`: the payloads that the bytes of three files stand for. `specs/Places`: where they stand.
//! - `specs/LogState`, `specs/RunState`: how a log, and a run, stand over a disk.
#![tactic(auto)]

mod append;
mod choose;
mod lay;
mod log;
mod new_log;
mod open;
mod open_error;
mod publish;
mod read;
mod run;
mod scan;
mod stage;
mod window;

pub use append::AppendError;
pub use log::Log;
pub use open_error::OpenError;
pub use read::ReadFault;
pub use run::Run;

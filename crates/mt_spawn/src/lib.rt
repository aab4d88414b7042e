//! How the commands of tasks are started, and what they leave.
//!
//! - `task`: orders, and what an ended child left. `spawner`: the trait of what runs children. `part_source`: a part of what one wrote.
//! - `no_spawner`: starts nothing. `work`, `children`, `running`, `mem_spawner`, `never_fails`: children in memory, by a script.
#![tactic(auto)]

mod children;
mod left;
mod mem_spawner;
mod mem_spool;
mod never_fails;
mod no_spawner;
mod part_source;
mod running;
mod spawner;
mod spool;
mod task;
mod work;

pub use left::told_of;
pub use mem_spawner::{MemSpawner, Script};
pub use mem_spool::{MemFile, MemSpool};
pub use no_spawner::NoSpawner;
pub use part_source::PartSource;
pub use spawner::Spawner;
pub use spool::{Spool, SpoolFault, SpoolStep};
pub use task::{AssetSize, Begun, FileSize, Left, Order, Part, Sizes, Ticket, Waited};
pub use work::Work;

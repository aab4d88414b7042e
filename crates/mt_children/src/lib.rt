//! The ends of jobs in the system: commands under a shell, each in a folder of its own, and the files of helpers in a folder. None
//! tells what it holds.
//!
//! - `sh_spawner`: the commands. `running`, `held`: those that live, and the one that has ended.
//! - `task_folder`, `script`, `outcome`: what a command finds, how it is started, and what it left. `group`: how it is ended.
//!   `quiet`: commands of the system that are called for it.
//! - `needs`: what tasks need. `fault`: why a call failed. `rests`: how long none is started then. `slice`: how long ended children are
//!   taken until others have their turn.
//! - `folder_spool`: the files of helpers.
#![tactic(auto)]

mod fault;
mod folder_spool;
mod group;
mod held;
mod needs;
mod outcome;
mod quiet;
mod rests;
mod running;
mod script;
mod sh_spawner;
mod slice;
mod task_folder;

pub use fault::{TaskFault, Tool};
pub use folder_spool::FolderSpool;
pub use sh_spawner::ShSpawner;

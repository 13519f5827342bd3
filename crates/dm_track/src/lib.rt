//! The histories of a task's shards: the rows of their dumps, and then what their sources' binlogs say of them.
#![tactic(auto)]

mod beginning;
mod building;
mod changing;
mod fault;
mod history;
mod inputs;
mod limits;
mod logs;
mod shard;
mod source;
mod tables;
#[cfg(test)]
mod tests;

pub use building::build;
pub use changing::{change_at, is_row};
pub use dm_walk::{Item, Place, PlaceKind};
pub use fault::BuildFault;
pub use history::{Bad, FileOrders, History};
pub use inputs::Inputs;

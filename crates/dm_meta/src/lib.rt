//! The records that the downstream keeps by name, as texts: how far a shard has come, and which schema changes a table's
//! lock has taken.
#![tactic(auto)]

mod checkpoint;
mod fault;
mod lock;
mod names;
mod reading;
#[cfg(test)]
mod tests;
mod writing;

pub use checkpoint::{Checkpoint, read_checkpoint, write_checkpoint};
pub use fault::MetaFault;
pub use lock::{Entry, LockRecord, read_lock, write_lock};
pub use names::{checkpoint_name, lock_name};

//! The dump of a shard's table: the file of its CREATE TABLE, and the files of its rows.
#![tactic(auto)]

mod create;
mod fault;
mod rows;
mod snapshot;
mod snapshots;
#[cfg(test)]
mod tests;

pub use snapshot::{RowsFile, Snapshot, SnapshotFault};
pub use snapshots::read_snapshot;

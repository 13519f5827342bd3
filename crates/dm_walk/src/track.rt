use crate::Item;
use dm_list::Sequence;
use dm_schema::{Schema, TableName};
use dm_stream::LogFault;

/// The history of a shard's table as far as it goes. Where it has ended before its source's files do, `fault` says why.
#[derive(Debug, Drop)]
pub struct Track {
    /// The table at its source.
    pub own: TableName,
    /// The schema of its dump.
    pub first: Schema,
    /// The schema behind each statement, in turn.
    pub later: Sequence<Schema>,
    pub items: Sequence<Item>,
    pub fault: Option<LogFault>,
}

use crate::history::FileOrders;
use dm_list::{Bytes, Sequence};
use dm_schema::TableName;
use dm_walk::Track;

/// What a history has besides what its walk gives.
#[derive(Debug, Drop)]
pub struct HistoryHead {
    /// The source's name, a blank, and the quoted name of the table.
    pub name: Bytes,
    pub target: TableName,
    pub orders: Sequence<FileOrders>,
}

/// A shard's history with the rows of its dump alone.
#[derive(Debug, Drop)]
pub struct Beginning {
    pub head: HistoryHead,
    pub track: Track,
}

use dm_list::{Bytes, Sequence};
use dm_route::Rules;
use dm_schema::TableName;
use dm_value::Name;

/// What a task file says.
#[derive(Debug, Drop)]
pub struct Task {
    pub name: Bytes,
    pub window: u32,
    pub batch: u32,
    pub lanes: u32,
    pub workers: u32,
    pub sources: Sequence<Source>,
    pub rules: Rules,
}

/// A server whose tables are copied.
#[derive(Debug, Drop)]
pub struct Source {
    pub name: Bytes,
    /// Names of files, in the order in which they are read.
    pub binlogs: Sequence<Bytes>,
    /// The byte of the first binlog at which reading begins.
    pub start: u32,
    pub tables: Sequence<SourceTable>,
}

/// A table of a source, with the names of the files that it was dumped to.
#[derive(Debug, Drop)]
pub struct SourceTable {
    pub db: Name,
    pub table: Name,
    /// The file of its CREATE TABLE.
    pub create: Bytes,
    /// The files of its rows.
    pub rows: Sequence<Bytes>,
}

/// A table of a source that is copied, and the table that it goes to.
#[derive(Debug, Drop)]
pub struct Shard {
    pub source: Bytes,
    pub name: TableName,
    pub target: TableName,
}

use crate::BadCause;
use dm_binlog::{Event, RowsHead, TableMap};
use dm_ddl::Head;

/// A binlog file of a source: its number among the task's files, and its bytes.
#[derive(Clone, Copy, Debug)]
pub struct LogFile<'a> {
    pub number: u32,
    pub bytes: &'a [u8],
}

/// What an event says to a source's shards, before any of their schemas is asked.
#[derive(Debug, Drop)]
pub enum Said<'a> {
    /// Nothing that a shard asks for.
    Nothing,
    /// The histories of all shards of the source end here.
    Ends(BadCause),
    /// Rows of a table: the event of the table map that the rows' table id stands for, what it says, and what stands
    /// before the rows.
    Rows {
        map_event: Event,
        map: TableMap,
        head: RowsHead,
    },
    /// A statement on tables, and the database that it was written in.
    Statement {
        head: Head,
        db: &'a [u8],
        text: &'a [u8],
    },
}

/// An event of a source's binlogs, with its file and what it says.
#[derive(Debug, Drop)]
pub struct Logged<'a> {
    pub file: LogFile<'a>,
    pub event: Event,
    pub said: Said<'a>,
}

/// Why a source's binlogs can't be read any further, at a place of a file.
#[derive(Clone, Copy, Debug, PartialEq, Eq)]
pub struct LogFault {
    pub file: u32,
    pub at: u32,
    pub cause: BadCause,
}

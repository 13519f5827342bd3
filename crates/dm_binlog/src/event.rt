use dm_list::Sequence;
use std::alloc::{AllocError, AllocFailed};

/// QUERY_EVENT: a statement.
pub const QUERY: u8 = 2;
/// FORMAT_DESCRIPTION_EVENT: the first event of each file.
pub const FORMAT_DESCRIPTION: u8 = 15;
/// TABLE_MAP_EVENT: what a table id stands for.
pub const TABLE_MAP: u8 = 19;
/// WRITE_ROWS_EVENT of version 1.
pub const WRITE_ROWS_V1: u8 = 23;
/// UPDATE_ROWS_EVENT of version 1.
pub const UPDATE_ROWS_V1: u8 = 24;
/// DELETE_ROWS_EVENT of version 1.
pub const DELETE_ROWS_V1: u8 = 25;
/// WRITE_ROWS_EVENT of version 2.
pub const WRITE_ROWS: u8 = 30;
/// UPDATE_ROWS_EVENT of version 2.
pub const UPDATE_ROWS: u8 = 31;
/// DELETE_ROWS_EVENT of version 2.
pub const DELETE_ROWS: u8 = 32;

/// An event of a file: its type code, and where its header, its body and what is behind it begin.
#[derive(Clone, Copy, Debug, PartialEq, Eq)]
pub struct Event {
    pub kind: u8,
    pub at: u32,
    pub body: u32,
    pub end: u32,
}

/// What is wrong with a source's binlog, each at the byte where its event begins.
#[derive(Clone, Copy, Debug, PartialEq, Eq)]
pub enum SourceCause {
    /// The file doesn't begin with `fe 62 69 6e`.
    Magic,
    /// The first event isn't a FORMAT_DESCRIPTION.
    NoFormat,
    /// The first event tells of another version, or of other lengths than those that are read.
    Format,
    /// Events have checksums, or something else behind their bodies.
    Checksum,
    /// An event's size is less than its header's, or the event runs past the end of a file that isn't the last.
    Size,
    /// The place to start from isn't the end of an event.
    Start,
    /// A body isn't of the grammar.
    Body,
    /// A rows event has a table id without a table map in its file.
    NoMap,
    /// A compressed transaction.
    Payload,
    /// A partial update of a JSON value.
    PartialUpdate,
    /// A row change in statement format.
    RowStatement,
}

/// The first fault of a file's framing.
#[derive(Clone, Copy, Debug, PartialEq, Eq)]
pub struct Fault {
    pub at: u32,
    pub cause: SourceCause,
}

/// The events of a file up to its first fault.
#[derive(Debug, Drop)]
pub struct Events {
    pub list: Sequence<Event>,
    pub fault: Option<Fault>,
}

/// Why events can't be listed.
#[derive(Clone, Copy, Debug, PartialEq, Eq)]
pub enum BinlogFault {
    Memory,
}

impl From<AllocError> for BinlogFault {
    fn from(_error: AllocError) -> Self {
        BinlogFault::Memory
    }
}

impl<T: Drop> From<AllocFailed<T>> for BinlogFault {
    fn from(_error: AllocFailed<T>) -> Self {
        BinlogFault::Memory
    }
}

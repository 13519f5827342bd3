//! The events of a binlog file of version 4, and the bodies of those that change tables.
#![tactic(auto)]

mod bodies;
mod event;
mod format;
mod framing;
mod front;
mod rows;
mod start;
mod table;
pub mod type_code;

pub use bodies::{ColumnMap, Query, RowsHead, TableMap, read_query};
pub use event::{
    BinlogFault, DELETE_ROWS, DELETE_ROWS_V1, Event, Events, FORMAT_DESCRIPTION, Fault, QUERY,
    SourceCause, TABLE_MAP, UPDATE_ROWS, UPDATE_ROWS_V1, WRITE_ROWS, WRITE_ROWS_V1,
};
pub use framing::read_events;
pub use rows::{bitmap_length, is_set, read_rows_head};
pub use table::read_table_map;

#[cfg(test)]
mod tests;

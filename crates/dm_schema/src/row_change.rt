use dm_list::Copied;
use dm_value::Row;
use std::alloc::{AllocError, Global};

/// A change of one row; an update has the old row and the new one. Values stand in the order of the schema's columns.
#[derive(Debug, Drop)]
pub enum RowChange {
    Insert(Row),
    Update(Row, Row),
    Delete(Row),
}

/// The values of a row under a key. Key 0 is the primary key, and key k the k-th unique key in byte order of names.
#[derive(Debug, Drop, PartialEq, Eq, PartialOrd, Ord)]
pub struct KeyValue {
    pub key: u8,
    pub values: Row,
}

impl Copied for RowChange {
    fn copy(&self, alloc: Global) -> Result<RowChange, AllocError> {
        Ok(match self {
            RowChange::Insert(row) => RowChange::Insert(row.copy(alloc)?),
            RowChange::Update(old, new) => RowChange::Update(old.copy(alloc)?, new.copy(alloc)?),
            RowChange::Delete(row) => RowChange::Delete(row.copy(alloc)?),
        })
    }
}

impl Copied for KeyValue {
    fn copy(&self, alloc: Global) -> Result<KeyValue, AllocError> {
        Ok(KeyValue {
            key: self.key,
            values: self.values.copy(alloc)?,
        })
    }
}

use dm_list::Copied;
use dm_value::Name;
use std::alloc::{AllocError, Global};

/// The name of a table in a database.
#[derive(Debug, Drop, PartialEq, Eq, PartialOrd, Ord)]
pub struct TableName {
    pub db: Name,
    pub table: Name,
}

impl Copied for TableName {
    fn copy(&self, alloc: Global) -> Result<TableName, AllocError> {
        Ok(TableName {
            db: self.db.copy(alloc)?,
            table: self.table.copy(alloc)?,
        })
    }
}

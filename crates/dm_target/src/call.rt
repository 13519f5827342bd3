use dm_list::{Bytes, Sequence};
use dm_schema::{Schema, TableName};
use dm_table::RowOp;

/// A text under a name.
#[derive(Debug, Drop, PartialEq, Eq)]
pub struct Meta {
    pub name: Bytes,
    pub text: Bytes,
}

/// A call that writes.
#[derive(Debug, Drop)]
pub enum Call {
    Create {
        table: TableName,
        schema: Schema,
    },
    Alter {
        table: TableName,
        schema: Schema,
    },
    Apply {
        table: TableName,
        ops: Sequence<RowOp>,
    },
    Metas {
        pairs: Sequence<Meta>,
    },
}

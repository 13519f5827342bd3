use dm_list::Sequence;
use dm_schema::{Changes, Schema, TableName};
use dm_table::RowOp;
use dm_target::Meta;

/// A record of the journal: what one call of a target writes. An alteration is a list of changes in it, since the
/// statement says what changes, and not what the table is then.
#[derive(Debug, Drop)]
pub enum Record {
    Create {
        table: TableName,
        schema: Schema,
    },
    Alter {
        table: TableName,
        changes: Changes,
    },
    Apply {
        table: TableName,
        ops: Sequence<RowOp>,
    },
    Metas {
        pairs: Sequence<Meta>,
    },
}

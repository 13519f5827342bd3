ghost use Rattle.std.specs.Prelude.{IsTrue};
ghost use Rattle.std.specs.List.{list_all};
ghost use Rattle.dm_stmt_read.specs.Reading.{has_length, is_typed_column, is_typed_change, is_typed_op, is_typed};

use dm_reread::{row_bytes, value_bytes};
use dm_schema::{Change, Column, DefaultRule, Kind};
use dm_stmt::Record;
use dm_table::RowOp;

/// Says of a record what its types do: lengths have 16 bits, and bytes have 8.
pub(crate) fn record_types(written: &Record)
    ensures { IsTrue (is_typed written.now) }
{
    match written {
        Record::Create { schema, .. } => columns_types(schema.columns()),
        Record::Alter { changes, .. } => changes_types(changes.as_slice()),
        Record::Apply { ops, .. } => ops_types(ops.as_slice()),
        Record::Metas { .. } => {}
    }
}

fn kind_types(kind: Kind)
    ensures { IsTrue (has_length kind) }
{
    match kind {
        Kind::Varchar(_) | Kind::Varbinary(_) => {}
        _ => {}
    }
}

fn column_types(column: &Column)
    ensures { IsTrue (is_typed_column column.now) }
{
    kind_types(column.kind);
    if let DefaultRule::Const(value) = &column.default_rule {
        value_bytes(value);
    }
}

/// Says of columns what their types do.
pub fn columns_types(columns: &[Column])
    ensures { IsTrue (list_all is_typed_column columns.now) }
{
    for column in columns {
        column_types(column);
    }
}

fn change_types(change: &Change)
    ensures { IsTrue (is_typed_change change.now) }
{
    if let Change::Add { column, .. } | Change::Modify { column, .. } = change {
        column_types(column);
    }
}

/// Says of changes what their types do.
pub fn changes_types(changes: &[Change])
    ensures { IsTrue (list_all is_typed_change changes.now) }
{
    for change in changes {
        change_types(change);
    }
}

fn op_types(op: &RowOp)
    ensures { IsTrue (is_typed_op op.now) }
{
    match op {
        RowOp::Insert { row, .. } | RowOp::Replace { row, .. } => row_bytes(row.as_slice()),
        RowOp::Update { key, row, .. } => {
            row_bytes(key.as_slice());
            row_bytes(row.as_slice());
        }
        RowOp::Delete { key } | RowOp::Erase { key } => row_bytes(key.as_slice()),
    }
}

/// Says of operations what their types do.
pub fn ops_types(ops: &[RowOp])
    ensures { IsTrue (list_all is_typed_op ops.now) }
{
    for op in ops {
        op_types(op);
    }
}

ghost use Rattle.std.specs.Prelude.{IsTrue};
ghost use Rattle.std.specs.List.{list_all};
ghost use Rattle.dm_reread.specs.Parts.{are_bytes, has_bytes, default_has_bytes};

use dm_schema::{Column, DefaultRule};
use dm_value::{Row, Value};

/// Says of a slice what its type does: its bytes are below 256.
fn slice_bytes(bytes: &[u8])
    ensures { IsTrue (are_bytes bytes.now) }
{}

/// Says that the bytes of a value are below 256, which the laws of written texts ask for.
pub fn value_bytes(value: &Value)
    ensures { IsTrue (has_bytes value.now) }
{
    if let Value::Bytes(bytes) = value {
        slice_bytes(bytes.as_slice());
    }
}

/// Says so of each value of a row.
pub fn row_bytes(row: &[Value])
    ensures { IsTrue (list_all has_bytes row.now) }
{
    for value in row {
        value_bytes(value);
    }
}

/// Says so of each value of each row.
pub fn rows_bytes(rows: &[Row])
    ensures { IsTrue (list_all (λ row. list_all has_bytes row) rows.now) }
{
    for row in rows {
        row_bytes(row.as_slice());
    }
}

fn default_bytes(column: &Column)
    ensures { IsTrue (default_has_bytes column.now) }
{
    if let DefaultRule::Const(value) = &column.default_rule {
        value_bytes(value);
    }
}

/// Says so of each column's default.
pub fn column_bytes(columns: &[Column])
    ensures { IsTrue (list_all default_has_bytes columns.now) }
{
    for column in columns {
        default_bytes(column);
    }
}

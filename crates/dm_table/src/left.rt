ghost use Rattle.std.specs.Prelude.{◌≡◌, IfOk, unwrap_or};
ghost use Rattle.std.specs.Option.{option_copied};
ghost use Rattle.dm_value.specs.declared.value.Value.TheVariants as value;
ghost use Rattle.dm_schema.specs.Fill.{fill_for_missing};
ghost use Rattle.dm_schema.specs.Rows.{cell};
ghost use Rattle.dm_table.specs.Operations.{given, kept_value, left_value, left_row};
ghost use Rattle.dm_table.specs.Staging.{rows_behind};
ghost use Rattle.std.specs.FinMap as fin;
ghost use Rattle.std.specs.Prelude.{option_and_then};

use crate::RowOp;
use crate::cells::{cell, named_value, value_or_null};
use crate::staged::Staged;
use dm_list::Copied;
use dm_schema::{Column, Schema, fill_for_missing};
use dm_value::{Row, Value};
use std::alloc::{AllocError, Global};

/// The row that an operation leaves, with a value for each column.
pub fn left_row(
    alloc: Global,
    schema: &Schema,
    op: &RowOp,
    rows: &Staged,
) -> Result<Row, AllocError>
    ensures { IfOk result (λ row. row ≡ left_row schema.now op.now (rows_behind rows.now)) }
{
    let columns = schema.columns();
    let mut values = Vec::with_capacity(alloc, columns.len())?;
    for column in columns {
        values.push(left_value(alloc, columns, op, rows, column)?)?;
    }
    Ok(Row::new(values))
}

/// The value that an operation gives a column.
pub fn given<'a>(op: &'a RowOp, column: &Column) -> Option<&'a Value>
    ensures { option_copied result ≡ given op.now column.now }
{
    named_value(op.columns(), op.values(), &column.name)
}

/// The value of a column in the row that an operation leaves.
fn left_value(
    alloc: Global,
    columns: &[Column],
    op: &RowOp,
    rows: &Staged,
    column: &Column,
) -> Result<Value, AllocError>
    ensures { IfOk result (λ found. found ≡ left_value columns.now op.now (rows_behind rows.now) column.now) }
{
    match given(op, column) {
        Some(value) => value.copy(alloc),
        None => kept_value(alloc, columns, op, rows, column),
    }
}

/// What a column has that isn't named: of a new row its constant fill, of an old one what it had; else NULL.
fn kept_value(
    alloc: Global,
    columns: &[Column],
    op: &RowOp,
    rows: &Staged,
    column: &Column,
) -> Result<Value, AllocError>
    ensures { IfOk result (λ found. found ≡ unwrap_or (kept_value columns.now op.now (rows_behind rows.now) column.now) value.Null) }
{
    match op.asked_key() {
        Some(key) => old_value(alloc, columns, rows, key, column),
        None => new_value(alloc, column),
    }
}

/// What the row of a key has in a column, or NULL.
fn old_value(
    alloc: Global,
    columns: &[Column],
    rows: &Staged,
    key: &Row,
    column: &Column,
) -> Result<Value, AllocError>
    ensures { IfOk result (λ found. found ≡ unwrap_or (option_and_then (λ row. cell columns.now row column.now.name) (fin.get (rows_behind rows.now) key.now)) value.Null) }
{
    match rows.get(key) {
        Some(row) => value_or_null(alloc, cell(columns, row.as_slice(), &column.name)),
        None => Ok(Value::Null),
    }
}

/// What a column has in a new row that doesn't name it, or NULL.
fn new_value(alloc: Global, column: &Column) -> Result<Value, AllocError>
    ensures { IfOk result (λ found. found ≡ unwrap_or (fill_for_missing column.now) value.Null) }
{
    match fill_for_missing(alloc, column)? {
        Some(value) => Ok(value),
        None => Ok(Value::Null),
    }
}

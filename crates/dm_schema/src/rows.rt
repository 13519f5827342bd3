ghost use Rattle.std.specs.Prelude.{◌≡◌, IfOk, unwrap_or};
ghost use Rattle.std.specs.Option.{option_copied};
ghost use Rattle.dm_schema.specs.Rows.{cell, values_at, key_of};
ghost use Rattle.dm_value.specs.declared.value.Value.TheVariants as value;

use crate::{Column, Schema};
use dm_list::Copied;
use dm_value::{Name, Row, Value};
use std::alloc::{AllocError, Global};

/// The values of a row under the primary key, in the key's order. Where the row is too short, NULL.
pub fn key_of(alloc: Global, schema: &Schema, row: &Row) -> Result<Row, AllocError>
    ensures { IfOk result (λ key. key ≡ key_of schema.now row.now) }
{
    let values = values_at(
        alloc,
        schema.columns(),
        row.as_slice(),
        schema.primary().as_slice(),
    )?;
    Ok(Row::new(values))
}

/// The values of a row in the columns of these names. Where there is no such column, or the row is too short, NULL.
pub fn values_at(
    alloc: Global,
    columns: &[Column],
    row: &[Value],
    names: &[Name],
) -> Result<Vec<Value>, AllocError>
    ensures { IfOk result (λ values. values.items ≡ values_at columns.now row.now names.now) }
{
    let mut values = Vec::with_capacity(alloc, names.len())?;
    for name in names {
        values.push(value_or_null(alloc, cell(columns, row, name))?)?;
    }
    Ok(values)
}

/// The value of a row in the column of a name.
fn cell<'a>(columns: &[Column], row: &'a [Value], name: &Name) -> Option<&'a Value>
    ensures { option_copied result ≡ cell columns.now row.now name.now }
{
    let [column, columns @ ..] = columns else {
        return None;
    };
    let [value, row @ ..] = row else {
        return None;
    };
    if column.name == *name {
        Some(value)
    } else {
        cell(columns, row, name)
    }
}

fn value_or_null(alloc: Global, found: Option<&Value>) -> Result<Value, AllocError>
    ensures { IfOk result (λ copy. copy ≡ unwrap_or (option_copied found.entry) value.Null) }
{
    match found {
        Some(value) => value.copy(alloc),
        None => Ok(Value::Null),
    }
}

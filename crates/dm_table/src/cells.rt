ghost use Rattle.std.specs.Prelude.{◌≡◌, IsTrue, IfOk, unwrap_or};
ghost use Rattle.std.specs.Option.{option_copied};
ghost use Rattle.dm_value.specs.declared.value.Value.TheVariants as value;
ghost use Rattle.std.specs.List.{list_any};
ghost use Rattle.dm_schema.specs.Kinds.{is_kind, is_null};
ghost use Rattle.dm_schema.specs.Rows.{cell};
ghost use Rattle.dm_table.specs.Operations.{named_value, is_unfit_value};

use dm_list::Copied;
use dm_schema::{Column, fits};
use dm_value::{Name, Value};
use std::alloc::{AllocError, Global};

/// The value of a row in the column of a name.
pub fn cell<'a>(columns: &[Column], row: &'a [Value], name: &Name) -> Option<&'a Value>
    ensures { option_copied result ≡ cell columns.now row.now name.now }
{
    let [column, columns @ ..] = columns else {
        return None;
    };
    let [value, row @ ..] = row else {
        return None;
    };
    if column.name == *name {
        Some(value)
    } else {
        cell(columns, row, name)
    }
}

/// The value that names with values in their order give a name; the first where it stands twice.
pub fn named_value<'a>(names: &[Name], row: &'a [Value], name: &Name) -> Option<&'a Value>
    ensures { option_copied result ≡ named_value names.now row.now name.now }
{
    let [first, names @ ..] = names else {
        return None;
    };
    let [value, row @ ..] = row else {
        return None;
    };
    if *first == *name {
        Some(value)
    } else {
        named_value(names, row, name)
    }
}

/// A copy of the value, or NULL where there is none.
pub fn value_or_null(alloc: Global, found: Option<&Value>) -> Result<Value, AllocError>
    ensures { IfOk result (λ copy. copy ≡ unwrap_or (option_copied found.entry) value.Null) }
{
    match found {
        Some(value) => value.copy(alloc),
        None => Ok(Value::Null),
    }
}

/// Whether there is a value that doesn't fit the column.
pub fn is_unfit_value(given: Option<&Value>, column: &Column) -> bool
    requires { IsTrue (is_kind column.now.kind) }
    ensures { result ≡ is_unfit_value (option_copied given.entry) column.now }
{
    match given {
        Some(value) => !fits(value, column),
        None => false,
    }
}

/// Whether one of the values is NULL.
pub fn has_null(values: &[Value]) -> bool
    ensures { result ≡ list_any is_null values.now }
{
    values.iter().any(|value| matches!(value, Value::Null))
}

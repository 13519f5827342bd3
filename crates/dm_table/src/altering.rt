ghost use Rattle.std.specs.Prelude.{◌≡◌, true, List, ◌∷◌, is_some, IsTrue, IfOk, if◌then◌else◌};
ghost use Rattle.std.specs.List.{list_all};
ghost use Rattle.std.specs.FinMap as fin;
ghost use Rattle.std.specs.Cmp.Lexicographic.{pointwise};
ghost use Rattle.dm_list.specs.Answer.{first_refusal, unless_refused, Answers};
ghost use Rattle.dm_value.specs.declared.value.Value.{Value};
ghost use Rattle.dm_schema.specs.Kinds.{is_column, is_kind};
ghost use Rattle.dm_schema.specs.Names.{same_name};
ghost use Rattle.dm_schema.specs.NameOrder.{columns_in_order, uniques_in_order};
ghost use Rattle.dm_table.specs.Contents.{AreRows};
ghost use Rattle.dm_table.specs.Alterations.{reshaped, reshaped_row, reshaped_value, has_unfit, is_unfit_column, is_shared};
ghost use Rattle.dm_table.specs.Seeing.{seen_again, IsNoted};
ghost use Rattle.dm_table.specs.Judging.{is_memory, altered_rows, unfit_column_refusals, shared_refusals};

use crate::TableFault;
use crate::cells::{cell, has_null, is_unfit_value};
use crate::keyed::KeyedRows;
use crate::sharing::duplicate;
use dm_list::Copied;
use dm_schema::{Column, Schema, UniqueKey, comparable, fill, has_fill, in_name_order, values_at};
use dm_value::{Row, Value};
use std::alloc::{AllocError, Global};

/// The rows under another schema, or the first refusal: the primary key, then columns by name, then unique keys by name.
pub fn altered_rows(
    alloc: Global,
    before: &Schema,
    rows: &KeyedRows,
    after: &Schema,
) -> Result<KeyedRows, TableFault>
    ensures altered { Answers is_memory result (altered_rows before.now rows.now after.now) }
    ensures rows { IfOk result (λ made. AreRows before.now rows.now → AreRows after.now made) }
{
    if !same_primary(before, after) {
        return Err(TableFault::PrimaryDiffers);
    }
    refuse_unfit(alloc, before, rows, after)?;
    let altered = reshaped(alloc, before.columns(), after.columns(), rows)?;
    refuse_shared(alloc, after, &altered)?;
    Ok(altered)
}

fn same_primary(before: &Schema, after: &Schema) -> bool
    ensures { result ≡ pointwise same_name before.now.primary after.now.primary }
{
    *before.primary() == *after.primary()
}

/// Refuses a column that stays and whose kinds aren't comparable, or that has a value that doesn't fit; and a new one
/// without a fill.
fn refuse_unfit(
    alloc: Global,
    before: &Schema,
    rows: &KeyedRows,
    after: &Schema,
) -> Result<(), TableFault>
    ensures { Answers is_memory result (unless_refused (first_refusal (unfit_column_refusals before.now.columns rows.now (columns_in_order after.now.columns))) tt) }
{
    let columns = in_name_order(alloc, after.columns())?;
    refuse_unfit_among(alloc, before, rows, &columns)
}

fn refuse_unfit_among(
    alloc: Global,
    before: &Schema,
    rows: &KeyedRows,
    columns: &[Column],
) -> Result<(), TableFault>
    requires { IsTrue (list_all is_column columns.now) }
    ensures { Answers is_memory result (unless_refused (first_refusal (unfit_column_refusals before.now.columns rows.now columns.now)) tt) }
{
    match columns {
        [] => Ok(()),
        [column, rest @ ..] => {
            if is_unfit_column(before, rows, column) {
                return Err(TableFault::Unfit {
                    column: column.name.copy(alloc)?,
                });
            }
            refuse_unfit_among(alloc, before, rows, rest)
        }
    }
}

fn is_unfit_column(before: &Schema, rows: &KeyedRows, column: &Column) -> bool
    requires { IsTrue (is_kind column.now.kind) }
    ensures { result ≡ is_unfit_column before.now.columns rows.now column.now }
{
    match before.column(&column.name) {
        Some(old) => {
            !comparable(old.kind, column.kind) || has_unfit(before.columns(), rows, column)
        }
        None => !has_fill(column),
    }
}

/// Whether a value that some row has in the old column doesn't fit the new one.
fn has_unfit(before: &[Column], rows: &KeyedRows, column: &Column) -> bool
    requires { IsTrue (is_kind column.now.kind) }
    ensures { result ≡ has_unfit before.now rows.now column.now }
{
    for row in rows.in_order().values() {
        if is_unfit_value(cell(before, row.as_slice(), &column.name), column) {
            return true;
        }
    }
    false
}

/// The rows with other columns, under the same keys.
fn reshaped(
    alloc: Global,
    before: &[Column],
    after: &[Column],
    rows: &KeyedRows,
) -> Result<KeyedRows, AllocError>
    ensures { IfOk result (λ made. made ≡ reshaped before.now after.now rows.now) }
{
    let mut made = KeyedRows::new(alloc);
    for (key, row) in rows.in_order() {
        let row = reshaped_row(alloc, before, after, row)?;
        made.insert(key.copy(alloc)?, row)?;
    }
    Ok(made)
}

fn reshaped_row(
    alloc: Global,
    before: &[Column],
    after: &[Column],
    row: &Row,
) -> Result<Row, AllocError>
    ensures { IfOk result (λ made. made ≡ reshaped_row before.now after.now row.now) }
{
    let mut values = Vec::with_capacity(alloc, after.len())?;
    for column in after {
        values.push(reshaped_value(alloc, before, row, column)?)?;
    }
    Ok(Row::new(values))
}

/// The value of a row in a column: what it had, or the fill of a new column.
fn reshaped_value(
    alloc: Global,
    before: &[Column],
    row: &Row,
    column: &Column,
) -> Result<Value, AllocError>
    ensures { IfOk result (λ made. made ≡ reshaped_value before.now row.now column.now) }
{
    if let Some(value) = cell(before, row.as_slice(), &column.name) {
        return value.copy(alloc);
    }
    match fill(alloc, column)? {
        Some(value) => Ok(value),
        None => Ok(Value::Null),
    }
}

/// Refuses a unique key in which two rows agree.
fn refuse_shared(alloc: Global, schema: &Schema, rows: &KeyedRows) -> Result<(), TableFault>
    ensures { Answers is_memory result (unless_refused (first_refusal (shared_refusals schema.now rows.now (uniques_in_order schema.now.uniques))) tt) }
{
    let keys = in_name_order(alloc, schema.uniques())?;
    refuse_shared_among(alloc, schema, rows, &keys)
}

fn refuse_shared_among(
    alloc: Global,
    schema: &Schema,
    rows: &KeyedRows,
    keys: &[UniqueKey],
) -> Result<(), TableFault>
    ensures { Answers is_memory result (unless_refused (first_refusal (shared_refusals schema.now rows.now keys.now)) tt) }
{
    match keys {
        [] => Ok(()),
        [key, rest @ ..] => {
            if is_shared(alloc, key, schema.columns(), rows)? {
                return Err(duplicate(schema, key));
            }
            refuse_shared_among(alloc, schema, rows, rest)
        }
    }
}

/// Whether two rows agree in a unique key.
fn is_shared(
    alloc: Global,
    key: &UniqueKey,
    columns: &[Column],
    rows: &KeyedRows,
) -> Result<bool, AllocError>
    ensures { IfOk result (λ shared. shared ≡ is_shared key.now columns.now rows.now) }
{
    let mut seen = KeyedRows::new(alloc);
    for row in rows.in_order().values() {
        if see_again(alloc, key, columns, row, &mut seen)? {
            return Ok(true);
        }
    }
    Ok(false)
}

/// Notes the values of a row under a unique key, unless one is NULL; whether they were noted before.
fn see_again(
    alloc: Global,
    key: &UniqueKey,
    columns: &[Column],
    row: &Row,
    seen: &mut KeyedRows,
) -> Result<bool, AllocError>
    ensures { IfOk result (λ again. (rest : List (List Value))
        → seen_again key.now columns.now (λ values. is_some (fin.get seen.old values)) (row.now ∷ rest)
        ≡ (if again then true else seen_again key.now columns.now (λ values. is_some (fin.get seen.new values)) rest)) }
{
    let values = values_at(alloc, columns, row.as_slice(), key.columns.as_slice())?;
    if has_null(&values) {
        return Ok(false);
    }
    note(alloc, Row::new(values), seen)
}

/// Notes values; whether they were noted before.
fn note(alloc: Global, values: Row, seen: &mut KeyedRows) -> Result<bool, AllocError>
    ensures { IfOk result (λ again. IsNoted seen.old values again seen.new) }
{
    if seen.get(&values).is_some() {
        return Ok(true);
    }
    let held = values.copy(alloc)?;
    seen.insert(values, held)?;
    Ok(false)
}

ghost use Rattle.std.specs.Prelude.{◌≡◌, [], ◌++◌, IsTrue, IfOk, OnOk};
ghost use Rattle.std.specs.List.{cons_option};
ghost use Rattle.dm_schema.specs.Schemas.{is_formed};
ghost use Rattle.dm_table.specs.Contents.{AreRows};
ghost use Rattle.dm_table.specs.Indexing.{Tells, all_noted, entries_of, some_entry, told_place};
ghost use Rattle.dm_table.specs.Staging.{rows_behind};

use crate::cells::has_null;
use crate::keyed::KeyedRows;
use crate::sharing::agree_in;
use crate::staged::Staged;
use dm_list::{Bytes, Copied};
use dm_schema::{Column, Schema, UniqueKey, values_at};
use dm_value::{Row, Value};
use std::alloc::{AllocError, Global};

/// What an index has of a row and a unique key: the row's values under it, and behind them the key's name; or nothing,
/// where a value is NULL.
fn entry_of(
    alloc: Global,
    key: &UniqueKey,
    columns: &[Column],
    row: &Row,
) -> Result<Option<Row>, AllocError>
    ensures { IfOk result (λ entry. entry ≡ some_entry key.now columns.now row.now) }
{
    let mut values = values_at(alloc, columns, row.as_slice(), key.columns.as_slice())?;
    if has_null(&values) {
        return Ok(None);
    }
    let name = Bytes::new(key.name.as_slice().to_vec(alloc)?);
    values.push(Value::Bytes(name))?;
    Ok(Some(Row::new(values)))
}

/// All that an index has of a row.
pub fn entries_of(alloc: Global, schema: &Schema, row: &Row) -> Result<Vec<Row>, AllocError>
    ensures entries { IfOk result (λ entries. entries.items ≡ entries_of schema.now row.now) }
    ensures formed { OnOk result (IsTrue (is_formed schema.now)) }
{
    let columns = schema.columns();
    let mut entries = Vec::new(alloc);
    for key in schema.uniques() {
        push_some(entry_of(alloc, key, columns, row)?, &mut entries)?;
    }
    Ok(entries)
}

/// Adds a row, where there is one.
pub fn push_some(row: Option<Row>, rows: &mut Vec<Row>) -> Result<(), AllocError>
    ensures { OnOk result (rows.new.items ≡ rows.old.items ++ cons_option row []) }
{
    if let Some(row) = row {
        rows.push(row)?;
    }
    Ok(())
}

/// Notes where a row stands under each of its entries.
fn note_all(
    alloc: Global,
    place: &Row,
    entries: Vec<Row>,
    index: &mut KeyedRows,
) -> Result<(), AllocError>
    ensures { OnOk result (index.new ≡ all_noted place.now entries.items index.old) }
{
    for entry in entries {
        index.insert(entry, place.copy(alloc)?)?;
    }
    Ok(())
}

/// An index of rows. Without unique keys no row is looked at.
pub fn index_of(alloc: Global, schema: &Schema, rows: &KeyedRows) -> Result<KeyedRows, AllocError>
    ensures { IfOk result (λ index. AreRows schema.now rows.now → Tells schema.now rows.now index) }
{
    let mut index = KeyedRows::new(alloc);
    if schema.uniques().is_empty() {
        return Ok(index);
    }
    for (place, row) in rows.in_order() {
        let entries = entries_of(alloc, schema, row)?;
        note_all(alloc, place, entries, &mut index)?;
    }
    Ok(index)
}

/// The primary key of the row that agrees with this one in a unique key, where the index has one.
pub fn told_place(
    alloc: Global,
    key: &UniqueKey,
    columns: &[Column],
    row: &Row,
    rows: &Staged,
    index: &Staged,
) -> Result<Option<Row>, AllocError>
    ensures { IfOk result (λ place. place ≡ told_place key.now columns.now (rows_behind rows.now) (rows_behind index.now) row.now) }
{
    let Some(entry) = entry_of(alloc, key, columns, row)? else {
        return Ok(None);
    };
    let Some(place) = index.get(&entry) else {
        return Ok(None);
    };
    let Some(other) = rows.get(place) else {
        return Ok(None);
    };
    if !agree_in(key, columns, row, other) {
        return Ok(None);
    }
    Ok(Some(place.copy(alloc)?))
}

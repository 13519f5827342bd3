ghost use Rattle.std.specs.Prelude.{◌≡◌, ◌≤◌, length, fold, IfOk, OnOk};
ghost use Rattle.std.specs.Option.{option_to_list};
ghost use Rattle.std.specs.List.{list_any};
ghost use Rattle.std.specs.Ordering.{is_lt};
ghost use Rattle.dm_schema.specs.Kinds.{is_null};
ghost use Rattle.dm_schema.specs.Names.{name_cmp};
ghost use Rattle.dm_schema.specs.Keys.{key_number, unique_value, row_keys, change_keys, keys_of, with_key, same_key_value};

use crate::rows::{key_of, values_at};
use crate::{KeyValue, Keys, RowChange, Schema, UniqueKey};
use dm_value::{Row, Value};
use std::alloc::{AllocError, Global};

/// The values of a change's rows under the keys of the schema, each once: those of the old row first, in each row the
/// primary key first. A unique key with a NULL has none.
pub fn keys_of(alloc: Global, schema: &Schema, change: &RowChange) -> Result<Keys, AllocError>
    ensures { IfOk result (λ keys. keys ≡ keys_of schema.now change.now) }
{
    let mut keys = Vec::new(alloc);
    put_change_keys(&mut keys, alloc, schema, change)?;
    Ok(Keys::new(keys))
}

fn put_change_keys(
    keys: &mut Vec<KeyValue>,
    alloc: Global,
    schema: &Schema,
    change: &RowChange,
) -> Result<(), AllocError>
    ensures { OnOk result
        (keys.new.items ≡ fold with_key keys.old.items (change_keys schema.now change.now)) }
{
    match change {
        RowChange::Insert(row) | RowChange::Delete(row) => put_row_keys(keys, alloc, schema, row),
        RowChange::Update(old, new) => {
            put_row_keys(keys, alloc, schema, old)?;
            put_row_keys(keys, alloc, schema, new)
        }
    }
}

fn put_row_keys(
    keys: &mut Vec<KeyValue>,
    alloc: Global,
    schema: &Schema,
    row: &Row,
) -> Result<(), AllocError>
    ensures { OnOk result (keys.new.items ≡ fold with_key keys.old.items (row_keys schema.now row.now)) }
{
    let primary = KeyValue {
        key: 0,
        values: key_of(alloc, schema, row)?,
    };
    put_key(keys, primary)?;
    for unique in schema.uniques() {
        put_unique(keys, alloc, schema, row, unique)?;
    }
    Ok(())
}

fn put_unique(
    keys: &mut Vec<KeyValue>,
    alloc: Global,
    schema: &Schema,
    row: &Row,
    unique: &UniqueKey,
) -> Result<(), AllocError>
    ensures { OnOk result
        (keys.new.items ≡ fold with_key keys.old.items (option_to_list (unique_value schema.now row.now unique.now))) }
{
    match unique_value(alloc, schema, row, unique)? {
        Some(value) => put_key(keys, value),
        None => Ok(()),
    }
}

/// Puts a key behind the others, unless it is among them.
fn put_key(keys: &mut Vec<KeyValue>, key: KeyValue) -> Result<(), AllocError>
    ensures { OnOk result (keys.new.items ≡ with_key keys.old.items key) }
{
    if !is_among(keys, &key) {
        keys.push(key)?;
    }
    Ok(())
}

fn is_among(keys: &[KeyValue], key: &KeyValue) -> bool
    ensures { result ≡ list_any (λ other. same_key_value other key.now) keys.now }
{
    keys.contains(key)
}

/// The values of a row under a unique key, unless one of them is NULL.
fn unique_value(
    alloc: Global,
    schema: &Schema,
    row: &Row,
    unique: &UniqueKey,
) -> Result<Option<KeyValue>, AllocError>
    ensures { IfOk result (λ value. value ≡ unique_value schema.now row.now unique.now) }
{
    let values = values_at(
        alloc,
        schema.columns(),
        row.as_slice(),
        unique.columns.as_slice(),
    )?;
    if has_null(&values) {
        return Ok(None);
    }
    Ok(Some(KeyValue {
        key: key_number(schema.uniques(), unique),
        values: Row::new(values),
    }))
}

fn has_null(values: &[Value]) -> bool
    ensures { result ≡ list_any is_null values.now }
{
    values.iter().any(|value| matches!(value, Value::Null))
}

/// The place of a unique key among the others in byte order of names, from 1.
fn key_number(uniques: &[UniqueKey], unique: &UniqueKey) -> u8
    requires { length uniques.now ≤ 16 }
    ensures { result ≡ key_number uniques.now unique.now }
{
    let before = uniques
        .iter()
        .filter(|other| other.name.cmp(&unique.name).is_lt())
        .count();
    1 + before as u8
}

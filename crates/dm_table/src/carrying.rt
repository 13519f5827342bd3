ghost use Rattle.std.specs.Prelude.{◌≡◌, true, false, List, None, is_some, IfOk, OnOk, OnErr};
ghost use Rattle.std.specs.List.{list_any};
ghost use Rattle.std.specs.FinMap as fin;
ghost use Rattle.dm_value.specs.declared.value.Value.{Value};
ghost use Rattle.dm_table.specs.Contents.{same_row};
ghost use Rattle.dm_table.specs.Staging.{changed, carried, fresh_keys, removed_all, HasRoom, IsFilled};

use crate::applying::Changed;
use crate::changes::Changes;
use crate::keyed::KeyedRows;
use dm_list::Copied;
use dm_value::Row;
use std::alloc::{AllocError, Global};

/// Carries changes over to rows and to their index; where memory is wanting both stay. First each new key is put, with an
/// empty row, since only a new key takes memory: what comes behind that can't fail.
pub fn carry_over(
    alloc: Global,
    rows: &mut KeyedRows,
    index: &mut KeyedRows,
    changed: Changed,
) -> Result<(), AllocError>
    ensures rows { OnOk result (rows.new ≡ carried (fin.entries changed.rows) rows.old) }
    ensures index { OnOk result (index.new ≡ carried (fin.entries changed.index) index.old) }
    ensures rows_kept { OnErr result (rows.new ≡ rows.old) }
    ensures index_kept { OnErr result (index.new ≡ index.old) }
{
    let keys = fresh_keys(alloc, rows, &changed.rows)?;
    let entries = fresh_keys(alloc, index, &changed.index)?;
    make_room(alloc, rows, &keys)?;
    match make_room(alloc, index, &entries) {
        Ok(()) => {
            carry_all(rows, changed.rows);
            carry_all(index, changed.index);
            Ok(())
        }
        Err(fault) => {
            remove_all(rows, &keys);
            Err(fault)
        }
    }
}

/// Copies of the keys at which a row was left and none stood.
fn fresh_keys(alloc: Global, rows: &KeyedRows, changes: &Changes) -> Result<Vec<Row>, AllocError>
    ensures { IfOk result (λ keys. keys.items ≡ fresh_keys rows.now (fin.entries changes.now)) }
{
    let mut keys = Vec::new(alloc);
    for (key, change) in changes.in_order() {
        if change.is_some() && rows.get(key).is_none() {
            keys.push(key.copy(alloc)?)?;
        }
    }
    Ok(keys)
}

/// Puts a row under each of the keys, or under none where memory is wanting.
fn make_room(alloc: Global, rows: &mut KeyedRows, keys: &[Row]) -> Result<(), AllocError>
    requires { (key : List Value) → list_any (same_row key) keys.now ≡ true → fin.get rows.old key ≡ None }
    ensures filled { OnOk result (IsFilled keys.now rows.old rows.new) }
    ensures kept { OnErr result (rows.new ≡ rows.old) }
{
    let put = put_empty(alloc, rows, keys);
    if put.is_err() {
        remove_all(rows, keys);
    }
    put
}

/// Puts an empty row under each of the keys, or under some where memory is wanting.
fn put_empty(alloc: Global, rows: &mut KeyedRows, keys: &[Row]) -> Result<(), AllocError>
    ensures elsewhere { (key : List Value) → list_any (same_row key) keys.now ≡ false → fin.get rows.new key ≡ fin.get rows.old key }
    ensures filled { OnOk result (IsFilled keys.now rows.old rows.new) }
{
    for key in keys {
        rows.insert(key.copy(alloc)?, Row::new(Vec::new(alloc)))?;
    }
    Ok(())
}

fn remove_all(rows: &mut KeyedRows, keys: &[Row])
    ensures { rows.new ≡ removed_all keys.now rows.old }
{
    for key in keys {
        rows.remove(key);
    }
}

/// Carries all changes over, where a row stands under each key at which one was left.
fn carry_all(rows: &mut KeyedRows, mut changes: Changes)
    requires { HasRoom changes rows.old }
    ensures { rows.new ≡ carried (fin.entries changes) rows.old }
{
    while let Some((key, change)) = changes.take_first() {
        carry_one(rows, key, change);
    }
}

fn carry_one(rows: &mut KeyedRows, key: Row, change: Option<Row>)
    requires { is_some change ≡ true → is_some (fin.get rows.old key) ≡ true }
    ensures { rows.new ≡ changed rows.old key change }
{
    match change {
        Some(row) => rows.replace(key, row),
        None => rows.remove(&key),
    }
}

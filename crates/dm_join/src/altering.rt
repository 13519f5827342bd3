ghost use Rattle.std.specs.Prelude.{◌≡◌, ◌++◌, true, false, not, map, IfOk, OnOk};
ghost use Rattle.std.specs.Option.{option_map_or};
ghost use Rattle.dm_schema.specs.Names.{column_at};
ghost use Rattle.dm_schema.specs.Schemas.{same_column};
ghost use Rattle.dm_schema.specs.declared.change.Change.TheVariants as change;
ghost use Rattle.dm_schema.specs.declared.change.Spot.TheVariants as spot;
ghost use Rattle.dm_join.specs.Alteration.{alteration, keys_only_in, columns_only_in, columns_moved};

use crate::schema_order::{has_column, has_unique};
use dm_schema::{Change, Changes, Column, Copied, Schema, Spot, UniqueKey, in_name_order};
use std::alloc::{AllocError, Global};

/// The changes that make one schema of another with the same primary key: drops of keys, drops of columns, columns
/// that are otherwise, new columns and new keys, each group in byte order of names.
#[tactic(auto, unfolding(crate::specs::Alteration::alteration))]
pub fn alteration(alloc: Global, old: &Schema, new: &Schema) -> Result<Changes, AllocError>
    requires { old.now.primary ≡ new.now.primary }
    ensures { IfOk result (λ changes. changes ≡ alteration old.now new.now) }
{
    let mut changes = Vec::new(alloc);
    drop_keys(alloc, &mut changes, &keys_only_in(alloc, old, new)?)?;
    drop_columns(alloc, &mut changes, &columns_only_in(alloc, old, new)?)?;
    modify_columns(alloc, &mut changes, &columns_moved(alloc, old, new)?)?;
    add_columns(alloc, &mut changes, &columns_only_in(alloc, new, old)?)?;
    add_keys(alloc, &mut changes, &keys_only_in(alloc, new, old)?)?;
    Ok(Changes::new(changes))
}

/// The unique keys that the other schema lacks.
fn keys_only_in(alloc: Global, here: &Schema, there: &Schema) -> Result<Vec<UniqueKey>, AllocError>
    ensures { IfOk result (λ keys. keys.items ≡ keys_only_in here.now there.now) }
{
    let mut keys = Vec::new(alloc);
    for key in here.uniques() {
        if !has_unique(there, key) {
            keys.push(key.copy(alloc)?)?;
        }
    }
    in_name_order(alloc, &keys)
}

/// The columns whose names the other schema lacks.
fn columns_only_in(alloc: Global, here: &Schema, there: &Schema) -> Result<Vec<Column>, AllocError>
    ensures { IfOk result (λ columns. columns.items ≡ columns_only_in here.now there.now) }
{
    let mut columns = Vec::new(alloc);
    for column in here.columns() {
        if !has_column(there, column) {
            columns.push(column.copy(alloc)?)?;
        }
    }
    in_name_order(alloc, &columns)
}

/// The columns of the new schema that the old one has otherwise.
fn columns_moved(alloc: Global, old: &Schema, new: &Schema) -> Result<Vec<Column>, AllocError>
    ensures { IfOk result (λ columns. columns.items ≡ columns_moved old.now new.now) }
{
    let mut columns = Vec::new(alloc);
    for column in new.columns() {
        if is_moved(old, column) {
            columns.push(column.copy(alloc)?)?;
        }
    }
    in_name_order(alloc, &columns)
}

/// Whether a schema has another column of this one's name.
fn is_moved(schema: &Schema, column: &Column) -> bool
    ensures { result ≡ option_map_or (λ before. not (same_column before column.now)) (column_at schema.now.columns column.now.name) false }
{
    match schema.column(&column.name) {
        Some(before) => *before != *column,
        None => false,
    }
}

fn drop_keys(alloc: Global, changes: &mut Vec<Change>, keys: &[UniqueKey]) -> Result<(), AllocError>
    ensures { OnOk result (changes.new.items ≡ changes.old.items ++ map (λ k. change.DropKey k.name) keys.now) }
{
    for key in keys {
        changes.push(Change::DropKey {
            name: key.name.copy(alloc)?,
        })?;
    }
    Ok(())
}

fn drop_columns(
    alloc: Global,
    changes: &mut Vec<Change>,
    columns: &[Column],
) -> Result<(), AllocError>
    ensures { OnOk result (changes.new.items ≡ changes.old.items ++ map (λ c. change.Drop c.name) columns.now) }
{
    for column in columns {
        changes.push(Change::Drop {
            name: column.name.copy(alloc)?,
        })?;
    }
    Ok(())
}

fn modify_columns(
    alloc: Global,
    changes: &mut Vec<Change>,
    columns: &[Column],
) -> Result<(), AllocError>
    ensures { OnOk result (changes.new.items ≡ changes.old.items ++ map (λ c. change.Modify c spot.Keep c.nullable) columns.now) }
{
    for column in columns {
        changes.push(Change::Modify {
            column: column.copy(alloc)?,
            spot: Spot::Keep,
            null_written: column.nullable,
        })?;
    }
    Ok(())
}

fn add_columns(
    alloc: Global,
    changes: &mut Vec<Change>,
    columns: &[Column],
) -> Result<(), AllocError>
    ensures { OnOk result (changes.new.items ≡ changes.old.items ++ map (λ c. change.Add c spot.Last) columns.now) }
{
    for column in columns {
        changes.push(Change::Add {
            column: column.copy(alloc)?,
            spot: Spot::Last,
        })?;
    }
    Ok(())
}

fn add_keys(alloc: Global, changes: &mut Vec<Change>, keys: &[UniqueKey]) -> Result<(), AllocError>
    ensures { OnOk result (changes.new.items ≡ changes.old.items ++ map (λ k. change.AddUnique k true) keys.now) }
{
    for key in keys {
        changes.push(Change::AddUnique {
            key: key.copy(alloc)?,
            named: true,
        })?;
    }
    Ok(())
}

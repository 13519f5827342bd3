ghost use Rattle.std.specs.Prelude.{◌≡◌, ℕ, List, IfOk};
ghost use Rattle.std.specs.Option.{option_copied};
ghost use Rattle.std.specs.List.{list_any};
ghost use Rattle.dm_list.specs.Answer.{first_refusal};
ghost use Rattle.dm_schema.specs.declared.change.Change.{Change};
ghost use Rattle.dm_schema.specs.declared.change.Change.TheVariants as change;
ghost use Rattle.dm_schema.specs.Effect.{Reading, adds, drops, was_added, was_dropped, is_among, is_key_column, stands, differs_in_family, with_default, refusals_of};

use crate::defaults::{DefaultReading, with_default};
use crate::uniques::has_key;
use dm_schema::{
    Change, Column, EffectFault, Name, Schema, SchemaFault, Spot, UniqueKey, all_columns,
    comparable, has_column, has_fill,
};
use std::alloc::{AllocError, Global};

/// Why a change has no effect on a schema, behind the changes of its statement that stand before it.
pub fn refusal<R: DefaultReading>(
    alloc: Global,
    reading: &R,
    before: &[Change],
    schema: &Schema,
    change: &Change,
) -> Result<Option<EffectFault>, AllocError>
    ensures { IfOk result (λ fault.
        fault ≡ first_refusal (refusals_of (R.reads reading.now) before.now schema.now change.now)) }
{
    match change {
        Change::Add { column, spot } => Ok(add_refusal(before, schema, column, spot)),
        Change::Drop { name } => Ok(drop_refusal(before, schema, name)),
        Change::Modify {
            column,
            spot,
            null_written,
        } => Ok(modify_refusal(before, schema, column, spot, *null_written)),
        Change::SetDefault { name, text } => {
            let column = with_default(alloc, reading, schema, name, text.as_slice())?;
            Ok(default_refusal(before, schema, name, column.as_ref()))
        }
        Change::AddUnique { key, named } => Ok(key_refusal(schema, key, *named)),
        Change::RenameKey { name } => Ok(rename_refusal(schema, name)),
        Change::Refused { cause } => Ok(Some(*cause)),
        Change::DropKey { .. } | Change::NoEffect => Ok(None),
    }
}

fn add_refusal(
    before: &[Change],
    schema: &Schema,
    column: &Column,
    spot: &Spot,
) -> Option<EffectFault>
    ensures { (reads : Reading) →
        result ≡ first_refusal (refusals_of reads before.now schema.now (change.Add column.now spot.now)) }
{
    if !stands(schema.columns(), spot) {
        return Some(EffectFault::UnknownColumn);
    }
    if has_column(schema.columns(), &column.name) {
        return Some(EffectFault::ColumnExists);
    }
    if was_dropped(before, &column.name) {
        return Some(EffectFault::Readd);
    }
    (!has_fill(column)).then_some(EffectFault::NoFill)
}

fn drop_refusal(before: &[Change], schema: &Schema, name: &Name) -> Option<EffectFault>
    ensures { (reads : Reading) →
        result ≡ first_refusal (refusals_of reads before.now schema.now (change.Drop name.now)) }
{
    if !has_column(schema.columns(), name) {
        return Some(EffectFault::UnknownColumn);
    }
    if is_key_column(schema, name) {
        return Some(EffectFault::KeyColumn);
    }
    was_added(before, name).then_some(EffectFault::Readd)
}

fn modify_refusal(
    before: &[Change],
    schema: &Schema,
    column: &Column,
    spot: &Spot,
    null_written: bool,
) -> Option<EffectFault>
    ensures { (reads : Reading) →
        result ≡ first_refusal (refusals_of reads before.now schema.now (change.Modify column.now spot.now null_written)) }
{
    if null_written && is_among(schema.primary().as_slice(), &column.name) {
        return Some(EffectFault::PrimaryChange);
    }
    if !(has_column(schema.columns(), &column.name) && stands(schema.columns(), spot)) {
        return Some(EffectFault::UnknownColumn);
    }
    if differs_in_family(schema.column(&column.name), column) {
        return Some(EffectFault::FamilyChange);
    }
    (was_added(before, &column.name) && !has_fill(column)).then_some(EffectFault::NoFill)
}

/// `column` is the column of the name with its new default, if there is one.
fn default_refusal(
    before: &[Change],
    schema: &Schema,
    name: &Name,
    column: Option<&Column>,
) -> Option<EffectFault>
    ensures { (reads : Reading) (text : List ℕ) →
        option_copied column.entry ≡ with_default reads schema.now.columns name.now text
        → result ≡ first_refusal (refusals_of reads before.now schema.now (change.SetDefault name.now text)) }
{
    if !has_column(schema.columns(), name) {
        return Some(EffectFault::UnknownColumn);
    }
    match column {
        Some(column) => {
            (was_added(before, name) && !has_fill(column)).then_some(EffectFault::NoFill)
        }
        None => Some(EffectFault::Made(SchemaFault::DefaultUnfit)),
    }
}

fn key_refusal(schema: &Schema, key: &UniqueKey, named: bool) -> Option<EffectFault>
    ensures { (reads : Reading) (before : List Change) →
        result ≡ first_refusal (refusals_of reads before schema.now (change.AddUnique key.now named)) }
{
    if !all_columns(schema.columns(), key.columns.as_slice()) {
        return Some(EffectFault::UnknownColumn);
    }
    (named && has_key(schema.uniques(), &key.name)).then_some(EffectFault::KeyExists)
}

fn rename_refusal(schema: &Schema, name: &Name) -> Option<EffectFault>
    ensures { (reads : Reading) (before : List Change) →
        result ≡ first_refusal (refusals_of reads before schema.now (change.RenameKey name.now)) }
{
    has_key(schema.uniques(), name).then_some(EffectFault::Renames)
}

/// Whether the spot names no column that isn't there.
fn stands(columns: &[Column], spot: &Spot) -> bool
    ensures { result ≡ stands columns.now spot.now }
{
    match spot {
        Spot::Keep | Spot::Last | Spot::First => true,
        Spot::After(name) => has_column(columns, name),
    }
}

pub fn is_among(names: &[Name], name: &Name) -> bool
    ensures { result ≡ is_among names.now name.now }
{
    names.iter().any(|other| *other == *name)
}

/// Whether the primary key or a unique key has the column.
fn is_key_column(schema: &Schema, name: &Name) -> bool
    ensures { result ≡ is_key_column schema.now name.now }
{
    is_among(schema.primary().as_slice(), name) || is_in_unique(schema.uniques(), name)
}

fn is_in_unique(uniques: &[UniqueKey], name: &Name) -> bool
    ensures { result ≡ list_any (λ k. is_among k.columns name.now) uniques.now }
{
    uniques
        .iter()
        .any(|key| is_among(key.columns.as_slice(), name))
}

fn adds(change: &Change, name: &Name) -> bool
    ensures { result ≡ adds change.now name.now }
{
    match change {
        Change::Add { column, .. } => column.name == *name,
        _ => false,
    }
}

fn drops(change: &Change, name: &Name) -> bool
    ensures { result ≡ drops change.now name.now }
{
    match change {
        Change::Drop { name: dropped } => *dropped == *name,
        _ => false,
    }
}

fn was_added(before: &[Change], name: &Name) -> bool
    ensures { result ≡ was_added before.now name.now }
{
    before.iter().any(|change| adds(change, name))
}

fn was_dropped(before: &[Change], name: &Name) -> bool
    ensures { result ≡ was_dropped before.now name.now }
{
    before.iter().any(|change| drops(change, name))
}

fn differs_in_family(before: Option<&Column>, after: &Column) -> bool
    ensures { result ≡ differs_in_family (option_copied before.entry) after.now }
{
    match before {
        Some(before) => !comparable(before.kind, after.kind),
        None => false,
    }
}

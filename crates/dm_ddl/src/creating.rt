ghost use Rattle.std.specs.Prelude.{◌≡◌, ◌<◌, ◌^◌, ◌++◌, None, length, IfOk, OnOk, IsTrue};
ghost use Rattle.std.specs.List.{list_any, list_all, flat_map};
ghost use Rattle.dm_schema.specs.Kinds.{is_column, is_key};
ghost use Rattle.dm_list.specs.Answer.{Answers};
ghost use Rattle.dm_ddl.specs.Bounds.{items_of, first_excess};
ghost use Rattle.dm_ddl.specs.Columns.{is_unfit};
ghost use Rattle.dm_ddl.specs.Creating.{columns_in, primaries_in, all_columns_of, named_behind, uniques_in, created, schema_with, schema_in};
ghost use Rattle.dm_syntax.specs.Parsing.{is_memory, made};

use crate::bounds::ITEM_ROLES;
use crate::columns::{column_in, is_unfit};
use crate::keys::{WrittenKey, primary_keys, unique_keys};
use dm_alter::named_key;
use dm_list::Copied;
use dm_schema::{Column, Schema, SchemaFault, UniqueKey};
use dm_syntax::{DdlFault, Piece, has_role, next_part, role};
use dm_value::{Name, Names};
use std::alloc::{AllocError, Global};

/// The columns of the definitions, where these are the primary key's.
fn columns_in(
    alloc: Global,
    text: &[u8],
    primary: &[Name],
    pieces: &[Piece],
) -> Result<Vec<Column>, AllocError>
    requires few { length text.now < 2 ^ 32 }
    requires bounds { first_excess text.now (items_of pieces.now) ≡ None }
    ensures { IfOk result (λ columns. columns.items ≡ columns_in text.now primary.now (items_of pieces.now)) }
{
    let mut columns = Vec::new(alloc);
    let mut rest = pieces;
    while let Some((item, behind)) = next_part(rest, &ITEM_ROLES) {
        if has_role(item, role::COLUMN_NAME) {
            columns.push(column_in(alloc, text, primary, item)?)?;
        }
        rest = behind;
    }
    Ok(columns)
}

/// Whether a column has a default that is none of its values.
pub fn has_unfit(
    alloc: Global,
    text: &[u8],
    primary: &[Name],
    pieces: &[Piece],
) -> Result<bool, AllocError>
    requires few { length text.now < 2 ^ 32 }
    requires bounds { first_excess text.now (items_of pieces.now) ≡ None }
    ensures { IfOk result (λ unfit. unfit ≡ list_any (is_unfit text.now primary.now) (items_of pieces.now)) }
{
    let mut rest = pieces;
    while let Some((item, behind)) = next_part(rest, &ITEM_ROLES) {
        if is_unfit(alloc, text, primary, item)? {
            return Ok(true);
        }
        rest = behind;
    }
    Ok(false)
}

/// Puts elements behind others.
pub fn push_all<T>(all: &mut Vec<T>, mut more: Vec<T>) -> Result<(), AllocError>
where
    T: Drop,
    ensures { OnOk result (all.new.items ≡ all.old.items ++ more.items) }
{
    all.append(&mut more)
}

/// The primary keys that are written.
fn primaries_in(alloc: Global, text: &[u8], pieces: &[Piece]) -> Result<Vec<Names>, AllocError>
    ensures { IfOk result (λ keys. keys.items ≡ primaries_in text.now (items_of pieces.now)) }
{
    let mut keys = Vec::new(alloc);
    let mut rest = pieces;
    while let Some((item, behind)) = next_part(rest, &ITEM_ROLES) {
        push_all(&mut keys, primary_keys(alloc, text, item)?)?;
        rest = behind;
    }
    Ok(keys)
}

/// The columns of keys.
fn all_columns_of(alloc: Global, keys: &[Names]) -> Result<Vec<Name>, AllocError>
    ensures { IfOk result (λ names. names.items ≡ all_columns_of keys.now) }
{
    let mut names = Vec::new(alloc);
    for key in keys {
        push_all(&mut names, key.copy(alloc)?.into_vec())?;
    }
    Ok(names)
}

/// Puts keys behind others, each named behind those before it.
fn push_named(
    alloc: Global,
    keys: &mut Vec<UniqueKey>,
    written: &[WrittenKey],
) -> Result<(), AllocError>
    ensures { OnOk result (keys.new.items ≡ named_behind keys.old.items written.now) }
{
    for key in written {
        let named = named_key(alloc, keys, &key.key, key.named)?;
        keys.push(named)?;
    }
    Ok(())
}

/// The unique keys of the definitions.
fn uniques_in(alloc: Global, text: &[u8], pieces: &[Piece]) -> Result<Vec<UniqueKey>, AllocError>
    ensures { IfOk result (λ keys. keys.items ≡ uniques_in text.now (items_of pieces.now)) }
{
    let mut keys = Vec::new(alloc);
    let mut rest = pieces;
    while let Some((item, behind)) = next_part(rest, &ITEM_ROLES) {
        let written = unique_keys(alloc, text, item)?;
        push_named(alloc, &mut keys, &written)?;
        rest = behind;
    }
    Ok(keys)
}

/// What a table that is created has.
struct Creation {
    columns: Vec<Column>,
    primaries: Vec<Names>,
    uniques: Vec<UniqueKey>,
    /// A column has a default that is none of its values.
    unfit: bool,
}

/// The schema of what was defined, or the first fault.
fn created(alloc: Global, creation: Creation) -> Result<Schema, DdlFault>
    requires columns { IsTrue (list_all is_column creation.columns.items) }
    requires uniques { IsTrue (list_all is_key creation.uniques.items) }
    ensures { Answers is_memory result (made (created creation.columns.items creation.primaries.items creation.uniques.items creation.unfit)) }
{
    let Creation {
        columns,
        primaries,
        uniques,
        unfit,
    } = creation;
    if primaries.len() > 1 {
        return if columns.len() > 256 || uniques.len() > 16 {
            Err(DdlFault::Made(SchemaFault::TooMany))
        } else {
            Err(DdlFault::Made(SchemaFault::Duplicate))
        };
    }
    let primary = Names::new(all_columns_of(alloc, &primaries)?);
    match Schema::new(columns, primary, uniques) {
        Ok(_) if unfit => Err(DdlFault::Made(SchemaFault::DefaultUnfit)),
        Ok(schema) => Ok(schema),
        Err(fault) => Err(DdlFault::Made(fault)),
    }
}

/// The schema of the definitions, or the first fault.
pub fn schema_in(alloc: Global, text: &[u8], pieces: &[Piece]) -> Result<Schema, DdlFault>
    requires few { length text.now < 2 ^ 32 }
    requires bounds { first_excess text.now (items_of pieces.now) ≡ None }
    ensures { Answers is_memory result (made (schema_in text.now (items_of pieces.now))) }
{
    let primaries = primaries_in(alloc, text, pieces)?;
    let primary = all_columns_of(alloc, &primaries)?;
    let columns = columns_in(alloc, text, &primary, pieces)?;
    let uniques = uniques_in(alloc, text, pieces)?;
    let unfit = has_unfit(alloc, text, &primary, pieces)?;
    let creation = Creation {
        columns,
        primaries,
        uniques,
        unfit,
    };
    created(alloc, creation)
}

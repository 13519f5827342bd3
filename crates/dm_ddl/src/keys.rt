ghost use Rattle.std.specs.Prelude.{◌≡◌, IfOk, IsTrue};
ghost use Rattle.std.specs.List.{list_all};
ghost use Rattle.dm_ddl.specs.Keys.{key_parts, key_name, is_named, key_over, key_of_column, unique_keys, primary_keys};

use crate::columns::{column_name, is_primary_column};
use dm_schema::UniqueKey;
use dm_syntax::names::{all_folded_with, folded_with};
use dm_syntax::{Piece, has_role, role};
use dm_value::{Name, Names};
use std::alloc::{AllocError, Global};

/// A unique key as it is written: with a name of its own or a CONSTRAINT's, or with an empty one.
#[derive(Debug, Drop)]
pub struct WrittenKey {
    pub key: UniqueKey,
    pub named: bool,
}

/// The columns of a key.
fn key_parts(alloc: Global, text: &[u8], item: &[Piece]) -> Result<Vec<Name>, AllocError>
    ensures { IfOk result (λ names. names.items ≡ key_parts text.now item.now) }
{
    all_folded_with(alloc, text, item, role::KEY_PART)
}

/// A key's own name, or its CONSTRAINT's.
fn key_name(alloc: Global, text: &[u8], item: &[Piece]) -> Result<Name, AllocError>
    ensures { IfOk result (λ name. name ≡ key_name text.now item.now) }
{
    let role = if has_role(item, role::KEY_NAME) {
        role::KEY_NAME
    } else {
        role::CONSTRAINT_NAME
    };
    folded_with(alloc, text, item, role)
}

fn is_named(item: &[Piece]) -> bool
    ensures { result ≡ is_named item.now }
{
    has_role(item, role::KEY_NAME) || has_role(item, role::CONSTRAINT_NAME)
}

/// A key over columns, of which there is one at least.
fn key_over(
    alloc: Global,
    text: &[u8],
    item: &[Piece],
    columns: Vec<Name>,
) -> Result<Vec<WrittenKey>, AllocError>
    ensures { IfOk result (λ keys. keys.items ≡ key_over text.now item.now columns.items) }
{
    if columns.is_empty() {
        return Ok(Vec::new(alloc));
    }
    let key = UniqueKey {
        name: key_name(alloc, text, item)?,
        columns: Names::new(columns),
    };
    let named = is_named(item);
    Ok(vec![in alloc; WrittenKey { key, named }]?)
}

/// The key over a column of which UNIQUE is written in its definition.
fn key_of_column(alloc: Global, name: Name) -> Result<Vec<WrittenKey>, AllocError>
    ensures { IfOk result (λ keys. keys.items ≡ key_of_column name) }
{
    let key = UniqueKey {
        name: Name::new(Vec::new(alloc)),
        columns: Names::new(vec![in alloc; name]?),
    };
    Ok(vec![in alloc; WrittenKey { key, named: false }]?)
}

/// The unique key that an item says, if it says one.
pub fn unique_keys(
    alloc: Global,
    text: &[u8],
    item: &[Piece],
) -> Result<Vec<WrittenKey>, AllocError>
    ensures { IfOk result (λ keys. keys.items ≡ unique_keys text.now item.now) }
{
    if has_role(item, role::UNIQUE_COLUMN) {
        key_of_column(alloc, column_name(alloc, text, item)?)
    } else if has_role(item, role::UNIQUE_KEY) || has_role(item, role::UNIQUE_INDEX) {
        let columns = key_parts(alloc, text, item)?;
        key_over(alloc, text, item, columns)
    } else {
        Ok(Vec::new(alloc))
    }
}

/// The primary key that a definition says, if it says one.
pub fn primary_keys(alloc: Global, text: &[u8], item: &[Piece]) -> Result<Vec<Names>, AllocError>
    ensures { IfOk result (λ keys. keys.items ≡ primary_keys text.now item.now) }
{
    if has_role(item, role::PRIMARY_KEY) {
        let columns = key_parts(alloc, text, item)?;
        Ok(vec![in alloc; Names::new(columns)]?)
    } else if has_role(item, role::COLUMN_NAME) && is_primary_column(item) {
        let name = column_name(alloc, text, item)?;
        let columns = vec![in alloc; name]?;
        Ok(vec![in alloc; Names::new(columns)]?)
    } else {
        Ok(Vec::new(alloc))
    }
}

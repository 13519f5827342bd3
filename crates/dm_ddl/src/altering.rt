ghost use Rattle.std.specs.Prelude.{◌≡◌, ◌<◌, ◌^◌, None, length, map, IfOk, IsTrue};
ghost use Rattle.std.specs.List.{list_all};
ghost use Rattle.dm_list.specs.Answer.{first_refusal};
ghost use Rattle.dm_schema.specs.Effect.{is_change};
ghost use Rattle.dm_ddl.specs.Bounds.{items_of, excess_in, first_excess};
ghost use Rattle.dm_ddl.specs.Altering.{is_added, spot_in, null_written, renames_column, column_refusals, column_change, added_key, column_changes, key_drop, default_text, rename_or_none, other_change, changes_of, changes_in};

use crate::bounds::ITEM_ROLES;
use crate::columns::{column_in, column_name, is_primary_column};
use crate::creating::push_all;
use crate::keys::{WrittenKey, unique_keys};
use dm_list::Bytes;
use dm_schema::{Change, EffectFault, Spot};
use dm_syntax::names::folded_with;
use dm_syntax::{Piece, bytes_of, first_with, has_role, next_part, role};
use dm_value::Name;
use std::alloc::{AllocError, Global};

fn is_added(item: &[Piece]) -> bool
    ensures { result ≡ is_added item.now }
{
    has_role(item, role::ADD) || has_role(item, role::ADD_MORE)
}

/// Where a column is put.
fn spot_in(alloc: Global, text: &[u8], item: &[Piece]) -> Result<Spot, AllocError>
    ensures { IfOk result (λ spot. spot ≡ spot_in text.now item.now) }
{
    if has_role(item, role::FIRST) {
        Ok(Spot::First)
    } else if has_role(item, role::AFTER_NAME) {
        Ok(Spot::After(folded_with(alloc, text, item, role::AFTER_NAME)?))
    } else if is_added(item) {
        Ok(Spot::Last)
    } else {
        Ok(Spot::Keep)
    }
}

fn null_written(item: &[Piece]) -> bool
    ensures { result ≡ null_written item.now }
{
    has_role(item, role::NULL_WRITTEN) && !has_role(item, role::AUTO_INCREMENT)
}

/// Whether CHANGE gives the column another name.
fn renames_column(alloc: Global, text: &[u8], item: &[Piece]) -> Result<bool, AllocError>
    ensures { IfOk result (λ renames. renames ≡ renames_column text.now item.now) }
{
    if !has_role(item, role::OLD_NAME) {
        return Ok(false);
    }
    let old = folded_with(alloc, text, item, role::OLD_NAME)?;
    Ok(old != column_name(alloc, text, item)?)
}

/// Why a change of a column is refused, whatever the schema.
fn column_refusal(
    alloc: Global,
    text: &[u8],
    item: &[Piece],
) -> Result<Option<EffectFault>, AllocError>
    ensures { IfOk result (λ cause. cause ≡ first_refusal (column_refusals text.now item.now)) }
{
    if renames_column(alloc, text, item)? {
        Ok(Some(EffectFault::Renames))
    } else if is_primary_column(item) {
        Ok(Some(EffectFault::PrimaryChange))
    } else if is_added(item) && has_role(item, role::AUTO_INCREMENT) {
        Ok(Some(EffectFault::NoFill))
    } else {
        Ok(None)
    }
}

fn column_change(alloc: Global, text: &[u8], item: &[Piece]) -> Result<Change, AllocError>
    requires few { length text.now < 2 ^ 32 }
    requires bounds { excess_in text.now item.now ≡ None }
    ensures value { IfOk result (λ change. change ≡ column_change text.now item.now) }
    ensures formed { IfOk result (λ change. IsTrue (is_change change)) }
{
    let column = column_in(alloc, text, &[], item)?;
    let spot = spot_in(alloc, text, item)?;
    if is_added(item) {
        Ok(Change::Add { column, spot })
    } else {
        Ok(Change::Modify {
            column,
            spot,
            null_written: null_written(item),
        })
    }
}

/// The changes that add unique keys.
fn added_keys(alloc: Global, keys: Vec<WrittenKey>) -> Result<Vec<Change>, AllocError>
    ensures { IfOk result (λ changes. changes.items ≡ map added_key keys.items) }
{
    keys.into_iter().map(added_key).collect(alloc)
}

fn added_key(written: WrittenKey) -> Change
    ensures { result ≡ added_key written }
{
    let WrittenKey { key, named } = written;
    Change::AddUnique { key, named }
}

/// A column, and behind it the unique key that its UNIQUE says.
fn column_changes(alloc: Global, text: &[u8], item: &[Piece]) -> Result<Vec<Change>, AllocError>
    requires few { length text.now < 2 ^ 32 }
    requires bounds { excess_in text.now item.now ≡ None }
    ensures value { IfOk result (λ changes. changes.items ≡ column_changes text.now item.now) }
{
    if let Some(cause) = column_refusal(alloc, text, item)? {
        return Ok(vec![in alloc; Change::Refused { cause }]?);
    }
    let mut changes = vec![in alloc; column_change(alloc, text, item)?]?;
    let keys = unique_keys(alloc, text, item)?;
    push_all(&mut changes, added_keys(alloc, keys)?)?;
    Ok(changes)
}

/// A key that is dropped: none but the primary one has the name PRIMARY.
fn key_drop(name: Name) -> Change
    ensures { result ≡ key_drop name }
{
    if name.as_slice() == b"primary".as_slice() {
        Change::Refused {
            cause: EffectFault::PrimaryChange,
        }
    } else {
        Change::DropKey { name }
    }
}

/// A default's literal as it is written, with its minus; empty for DROP DEFAULT.
fn default_text(alloc: Global, text: &[u8], item: &[Piece]) -> Result<Bytes, AllocError>
    ensures { IfOk result (λ written. written ≡ default_text text.now item.now) }
{
    let mut written = Vec::new(alloc);
    if has_role(item, role::MINUS) {
        written.push(b'-')?;
    }
    if let Some(piece) = first_with(item, role::LITERAL) {
        written.extend_from_slice(bytes_of(text, &piece.token))?;
    }
    Ok(Bytes::new(written))
}

/// What a change that defines no column and no key says.
fn other_change(alloc: Global, text: &[u8], item: &[Piece]) -> Result<Option<Change>, AllocError>
    ensures { IfOk result (λ change. change ≡ other_change text.now item.now) }
{
    if has_role(item, role::PRIMARY_KEY) {
        return Ok(Some(Change::Refused {
            cause: EffectFault::PrimaryChange,
        }));
    }
    if has_role(item, role::DROPPED_COLUMN) {
        let name = folded_with(alloc, text, item, role::DROPPED_COLUMN)?;
        return Ok(Some(Change::Drop { name }));
    }
    if has_role(item, role::DROPPED_KEY) {
        let name = folded_with(alloc, text, item, role::DROPPED_KEY)?;
        return Ok(Some(key_drop(name)));
    }
    if has_role(item, role::ALTERED) {
        return Ok(Some(Change::SetDefault {
            name: folded_with(alloc, text, item, role::ALTERED)?,
            text: default_text(alloc, text, item)?,
        }));
    }
    rename_or_none(alloc, text, item)
}

/// What a change says that renames, or has no effect.
fn rename_or_none(alloc: Global, text: &[u8], item: &[Piece]) -> Result<Option<Change>, AllocError>
    ensures { IfOk result (λ change. change ≡ rename_or_none text.now item.now) }
{
    if has_role(item, role::RENAMED_KEY) {
        let name = folded_with(alloc, text, item, role::RENAMED_KEY)?;
        return Ok(Some(Change::RenameKey { name }));
    }
    if has_role(item, role::RENAME) {
        return Ok(Some(Change::Refused {
            cause: EffectFault::Renames,
        }));
    }
    let has_none = has_role(item, role::PLAIN_KEY)
        || has_role(item, role::PLAIN_INDEX)
        || has_role(item, role::NO_EFFECT);
    Ok(has_none.then(|| Change::NoEffect))
}

/// What one change says.
fn changes_of(alloc: Global, text: &[u8], item: &[Piece]) -> Result<Vec<Change>, AllocError>
    requires few { length text.now < 2 ^ 32 }
    requires bounds { excess_in text.now item.now ≡ None }
    ensures { IfOk result (λ changes. changes.items ≡ changes_of text.now item.now) }
{
    if has_role(item, role::COLUMN_NAME) {
        column_changes(alloc, text, item)
    } else if has_role(item, role::UNIQUE_KEY) || has_role(item, role::UNIQUE_INDEX) {
        let keys = unique_keys(alloc, text, item)?;
        added_keys(alloc, keys)
    } else {
        match other_change(alloc, text, item)? {
            Some(change) => Ok(vec![in alloc; change]?),
            None => Ok(Vec::new(alloc)),
        }
    }
}

/// The changes of a statement, from left to right.
pub fn changes_in(alloc: Global, text: &[u8], pieces: &[Piece]) -> Result<Vec<Change>, AllocError>
    requires few { length text.now < 2 ^ 32 }
    requires bounds { first_excess text.now (items_of pieces.now) ≡ None }
    ensures { IfOk result (λ changes. changes.items ≡ changes_in text.now (items_of pieces.now)) }
{
    let mut changes = Vec::new(alloc);
    let mut rest = pieces;
    while let Some((item, behind)) = next_part(rest, &ITEM_ROLES) {
        push_all(&mut changes, changes_of(alloc, text, item)?)?;
        rest = behind;
    }
    Ok(changes)
}

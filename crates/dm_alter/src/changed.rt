ghost use Rattle.std.specs.Prelude.{◌≡◌, IfOk, IsTrue};
ghost use Rattle.std.specs.List.{list_all};
ghost use Rattle.dm_schema.specs.Kinds.{is_column, is_key};
ghost use Rattle.dm_schema.specs.Layout.{Layout};
ghost use Rattle.dm_schema.specs.Effect.{Reading, is_change, changed, made, modified_column};
ghost use Rattle.dm_alter.specs.Making.{layout_of, making_of};

use crate::columns::{copied, modified, placed, replaced, without_column};
use crate::defaults::{DefaultReading, with_default};
use crate::refusals::is_among;
use crate::uniques::{with_key, without_key};
use dm_schema::{Change, Column, Copied, EffectFault, Names, Schema, UniqueKey};
use std::alloc::{AllocError, Global};

/// How many columns a schema may have: as many as one that is read, or any number.
#[derive(Clone, Copy, Debug, PartialEq, Eq)]
pub enum Bound {
    Read,
    Joined,
}

/// What a schema is made of.
#[derive(Drop)]
pub struct Parts {
    pub columns: Vec<Column>,
    pub primary: Names,
    pub uniques: Vec<UniqueKey>,
}

impl Parts {
    /// The schema of these parts, if it can be made.
    pub fn made(self, bound: Bound) -> Result<Schema, EffectFault>
        requires columns { IsTrue (list_all is_column self.columns.items) }
        requires uniques { IsTrue (list_all is_key self.uniques.items) }
        ensures { result ≡ made (making_of bound) (layout_of self) }
    {
        let Parts {
            columns,
            primary,
            uniques,
        } = self;
        match bound {
            Bound::Read => Schema::new(columns, primary, uniques),
            Bound::Joined => Schema::joined(columns, primary, uniques),
        }
        .map_err(EffectFault::Made)
    }
}

/// The columns and keys after a change that isn't refused.
pub fn changed<R: DefaultReading>(
    alloc: Global,
    reading: &R,
    schema: &Schema,
    change: &Change,
) -> Result<Parts, AllocError>
    requires { IsTrue (is_change change.now) }
    ensures layout { IfOk result (λ parts. layout_of parts ≡ changed (R.reads reading.now) schema.now change.now) }
    ensures columns { IfOk result (λ parts. IsTrue (list_all is_column parts.columns.items)) }
    ensures uniques { IfOk result (λ parts. IsTrue (list_all is_key parts.uniques.items)) }
{
    let primary = schema.primary().copy(alloc)?;
    let columns = columns_after(alloc, reading, schema, change)?;
    let uniques = uniques_after(alloc, schema.uniques(), change)?;
    Ok(Parts {
        columns,
        primary,
        uniques,
    })
}

fn columns_after<R: DefaultReading>(
    alloc: Global,
    reading: &R,
    schema: &Schema,
    change: &Change,
) -> Result<Vec<Column>, AllocError>
    ensures { IfOk result (λ columns. columns.items ≡ (changed (R.reads reading.now) schema.now change.now).columns) }
{
    let columns = schema.columns();
    match change {
        Change::Add { column, spot } => placed(alloc, spot, column, columns),
        Change::Drop { name } => without_column(alloc, columns, name),
        Change::Modify { column, spot, .. } => {
            let column = modified_column(alloc, schema, column)?;
            modified(alloc, spot, &column, columns)
        }
        Change::SetDefault { name, text } => {
            match with_default(alloc, reading, schema, name, text.as_slice())? {
                Some(column) => replaced(alloc, &column, columns),
                None => copied(alloc, columns),
            }
        }
        Change::AddUnique { .. }
        | Change::DropKey { .. }
        | Change::RenameKey { .. }
        | Change::Refused { .. }
        | Change::NoEffect => copied(alloc, columns),
    }
}

fn uniques_after(
    alloc: Global,
    uniques: &[UniqueKey],
    change: &Change,
) -> Result<Vec<UniqueKey>, AllocError>
    ensures { IfOk result (λ after. (reads : Reading) (layout : Layout) → layout.uniques ≡ uniques.now
        → after.items ≡ (changed reads layout change.now).uniques) }
{
    match change {
        Change::AddUnique { key, named } => with_key(alloc, uniques, key, *named),
        Change::DropKey { name } => without_key(alloc, uniques, name),
        Change::Add { .. }
        | Change::Drop { .. }
        | Change::Modify { .. }
        | Change::SetDefault { .. }
        | Change::RenameKey { .. }
        | Change::Refused { .. }
        | Change::NoEffect => copied(alloc, uniques),
    }
}

/// A column as it is modified: one of the primary key stays NOT NULL.
fn modified_column(alloc: Global, schema: &Schema, column: &Column) -> Result<Column, AllocError>
    ensures { IfOk result (λ modified. modified ≡ modified_column schema.now column.now) }
{
    let mut modified = column.copy(alloc)?;
    if is_among(schema.primary().as_slice(), &column.name) {
        modified.nullable = false;
    }
    Ok(modified)
}

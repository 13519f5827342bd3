//! The change of a row, carried out on a table.

ghost use Rattle.std.specs.Prelude.{◌≡◌, Some, None, MatchBool, IfOk};
ghost use Rattle.dm_schema.specs.Names.{column_names};
ghost use Rattle.dm_table.specs.Operations.{table_applied};
ghost use Rattle.dm_fold.specs.Folds.{changed, deletion, has_old, insertion, is_there, ops_of, unless_refused};

use dm_list::Copied;
use dm_schema::{Column, RowChange, Schema, key_of};
use dm_table::{RowOp, Table, TableFault};
use dm_value::{Names, Row};
use std::alloc::{AllocError, Global};

fn column_names(alloc: Global, columns: &[Column]) -> Result<Names, AllocError>
    ensures { IfOk result (λ names. names ≡ column_names columns.now) }
{
    let mut names = Vec::with_capacity(alloc, columns.len())?;
    for column in columns {
        names.push(column.name.copy(alloc)?)?;
    }
    Ok(Names::new(names))
}

fn insertion(alloc: Global, schema: &Schema, row: &Row) -> Result<RowOp, AllocError>
    ensures { IfOk result (λ o. o ≡ insertion schema.now row.now) }
{
    Ok(RowOp::Insert {
        columns: column_names(alloc, schema.columns())?,
        row: row.copy(alloc)?,
    })
}

fn deletion(alloc: Global, schema: &Schema, row: &Row) -> Result<RowOp, AllocError>
    ensures { IfOk result (λ o. o ≡ deletion schema.now row.now) }
{
    Ok(RowOp::Delete {
        key: key_of(alloc, schema, row)?,
    })
}

/// The operations of a change.
fn ops_of(alloc: Global, schema: &Schema, change: &RowChange) -> Result<Vec<RowOp>, AllocError>
    ensures { IfOk result (λ ops. ops.items ≡ ops_of schema.now change.now) }
{
    let mut ops = Vec::with_capacity(alloc, 2)?;
    match change {
        RowChange::Insert(new) => ops.push(insertion(alloc, schema, new)?)?,
        RowChange::Update(old, new) => {
            ops.push(deletion(alloc, schema, old)?)?;
            ops.push(insertion(alloc, schema, new)?)?;
        }
        RowChange::Delete(old) => ops.push(deletion(alloc, schema, old)?)?,
    }
    Ok(ops)
}

/// Whether a row stands in a table as it is given.
fn is_there(alloc: Global, table: &Table, row: &Row) -> Result<bool, AllocError>
    ensures { IfOk result (λ found. found ≡ is_there table.now row.now) }
{
    let key = key_of(alloc, table.schema(), row)?;
    match table.get(&key) {
        Some(other) => Ok(row.cmp(other).is_eq()),
        None => Ok(false),
    }
}

/// Whether the old row of a change is there.
fn has_old(alloc: Global, table: &Table, change: &RowChange) -> Result<bool, AllocError>
    ensures { IfOk result (λ found. found ≡ has_old table.now change.now) }
{
    match change {
        RowChange::Insert(_) => Ok(true),
        RowChange::Update(old, _) | RowChange::Delete(old) => is_there(alloc, table, old),
    }
}

/// Carries out operations; whether that is defined.
fn apply(alloc: Global, table: &mut Table, ops: &[RowOp]) -> Result<bool, AllocError>
    ensures { IfOk result (λ done. MatchBool done (unless_refused (table_applied table.old ops.now) ≡ Some table.new) (unless_refused (table_applied table.old ops.now) ≡ None)) }
{
    match table.apply(alloc, ops) {
        Ok(()) => Ok(true),
        Err(TableFault::Memory) => Err(AllocError),
        Err(_) => Ok(false),
    }
}

/// Carries out the change of a row; whether that is defined.
pub fn change(alloc: Global, table: &mut Table, change: &RowChange) -> Result<bool, AllocError>
    ensures { IfOk result (λ done. MatchBool done (changed table.old change.now ≡ Some table.new) (changed table.old change.now ≡ None)) }
{
    if !has_old(alloc, table, change)? {
        return Ok(false);
    }
    let ops = ops_of(alloc, table.schema(), change)?;
    apply(alloc, table, &ops)
}

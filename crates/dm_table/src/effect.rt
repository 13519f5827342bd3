ghost use Rattle.std.specs.Prelude.{◌≡◌, OnOk};
ghost use Rattle.dm_table.specs.Contents.{AreRows};
ghost use Rattle.dm_table.specs.Indexing.{Tells};
ghost use Rattle.dm_table.specs.Operations.{effect, with_row};
ghost use Rattle.dm_table.specs.Staging.{rows_behind};

use crate::RowOp;
use crate::clearing::{remove_row, remove_sharing};
use crate::indexing::entries_of;
use crate::left::left_row;
use crate::staged::Staged;
use dm_schema::{Schema, key_of};
use dm_value::Row;
use std::alloc::{AllocError, Global};

/// Changes the rows as an operation does that isn't refused, and their index with them.
pub fn take_effect(
    alloc: Global,
    schema: &Schema,
    op: &RowOp,
    rows: &mut Staged,
    index: &mut Staged,
) -> Result<(), AllocError>
    requires { Tells schema.now (rows_behind rows.old) (rows_behind index.old) }
    ensures behind { OnOk result (rows_behind rows.new ≡ effect schema.now op.now (rows_behind rows.old)) }
    ensures told { OnOk result (AreRows schema.now (rows_behind rows.new) → Tells schema.now (rows_behind rows.new) (rows_behind index.new)) }
    ensures rows { OnOk result (rows.new.base ≡ rows.old.base) }
    ensures index { OnOk result (index.new.base ≡ index.old.base) }
{
    match op {
        RowOp::Insert { .. } => {
            let row = left_row(alloc, schema, op, rows)?;
            put_row(alloc, schema, row, rows, index)
        }
        RowOp::Replace { .. } => {
            let row = left_row(alloc, schema, op, rows)?;
            let key = key_of(alloc, schema, &row)?;
            remove_sharing(alloc, schema, &key, &row, rows, index)?;
            put_row(alloc, schema, row, rows, index)
        }
        RowOp::Update { key, .. } => {
            let row = left_row(alloc, schema, op, rows)?;
            remove_row(alloc, schema, key, rows, index)?;
            put_row(alloc, schema, row, rows, index)
        }
        RowOp::Delete { key } | RowOp::Erase { key } => {
            remove_row(alloc, schema, key, rows, index)
        }
    }
}

/// Puts a row under its primary key, and notes in the index where it stands.
fn put_row(
    alloc: Global,
    schema: &Schema,
    row: Row,
    rows: &mut Staged,
    index: &mut Staged,
) -> Result<(), AllocError>
    ensures behind { OnOk result (rows_behind rows.new ≡ with_row schema.now row (rows_behind rows.old)) }
    ensures told { OnOk result (AreRows schema.now (rows_behind rows.new) → Tells schema.now (rows_behind rows.old) (rows_behind index.old) → Tells schema.now (rows_behind rows.new) (rows_behind index.new)) }
    ensures rows { OnOk result (rows.new.base ≡ rows.old.base) }
    ensures index { OnOk result (index.new.base ≡ index.old.base) }
{
    let key = key_of(alloc, schema, &row)?;
    let entries = entries_of(alloc, schema, &row)?;
    index.insert_all(alloc, entries, &key)?;
    rows.insert(key, row)
}

ghost use Rattle.std.specs.Prelude.{◌≡◌, IsTrue, IfOk, OnOk};
ghost use Rattle.std.specs.Option.{option_copied};
ghost use Rattle.std.specs.List.{list_all};
ghost use Rattle.dm_list.specs.Answer.{first_refusal, unless_refused, Answers};
ghost use Rattle.dm_schema.specs.Kinds.{is_column, is_kind};
ghost use Rattle.dm_schema.specs.Schemas.{is_formed};
ghost use Rattle.dm_schema.specs.NameOrder.{columns_in_order, uniques_in_order};
ghost use Rattle.dm_table.specs.Operations.{refusals, names_in_order, columns_of, is_unfit, lacks_value, key_value, is_other, old_row};
ghost use Rattle.dm_table.specs.Indexing.{Tells};
ghost use Rattle.dm_table.specs.Staging.{rows_behind};
ghost use Rattle.dm_table.specs.Judging.{is_memory, unknown_refusals, unfit_refusals, missing_refusals, primary_refusals, unique_refusals, told_refusals, is_told_taken};

use crate::cells::{is_unfit_value, named_value};
use crate::indexing::told_place;
use crate::left::{given, left_row};
use crate::said::{SaidName, said_in_order};
use crate::sharing::duplicate;
use crate::staged::Staged;
use crate::{RowOp, TableFault};
use dm_list::Copied;
use dm_schema::{
    Column, Schema, UniqueKey, has_column, has_fill_for_missing, in_name_order, key_of,
};
use dm_value::{Name, Row, Value};
use std::alloc::{AllocError, Global};

/// Whether an operation may be taken: the first of its refusals, in their order.
pub fn judge(
    alloc: Global,
    schema: &Schema,
    op: &RowOp,
    rows: &Staged,
    index: &Staged,
) -> Result<(), TableFault>
    requires { Tells schema.now (rows_behind rows.now) (rows_behind index.now) }
    ensures judged { Answers is_memory result (unless_refused (first_refusal (refusals schema.now op.now (rows_behind rows.now))) tt) }
    ensures formed { OnOk result (IsTrue (is_formed schema.now)) }
{
    refuse_unknown(alloc, schema, op)?;
    refuse_unfit(alloc, schema, op)?;
    refuse_missing(op, rows)?;
    let row = left_row(alloc, schema, op, rows)?;
    refuse_primary(alloc, schema, op, rows, &row)?;
    refuse_uniques(alloc, schema, op, rows, index, &row)
}

/// Refuses an operation that names a column that isn't there.
fn refuse_unknown(alloc: Global, schema: &Schema, op: &RowOp) -> Result<(), TableFault>
    ensures { Answers is_memory result (unless_refused (first_refusal (unknown_refusals schema.now.columns (names_in_order (columns_of op.now)))) tt) }
{
    let names = said_in_order(alloc, op.columns())?;
    refuse_unknown_among(alloc, schema.columns(), &names)
}

fn refuse_unknown_among(
    alloc: Global,
    columns: &[Column],
    names: &[SaidName],
) -> Result<(), TableFault>
    ensures { Answers is_memory result (unless_refused (first_refusal (unknown_refusals columns.now names.now)) tt) }
{
    match names {
        [] => Ok(()),
        [name, rest @ ..] => {
            if !has_column(columns, name.as_name()) {
                return Err(TableFault::UnknownColumn {
                    column: name.as_name().copy(alloc)?,
                });
            }
            refuse_unknown_among(alloc, columns, rest)
        }
    }
}

/// Refuses an operation with a value that doesn't fit, or without one that is needed.
fn refuse_unfit(alloc: Global, schema: &Schema, op: &RowOp) -> Result<(), TableFault>
    ensures judged { Answers is_memory result (unless_refused (first_refusal (unfit_refusals schema.now op.now (columns_in_order schema.now.columns))) tt) }
    ensures formed { IsTrue (is_formed schema.now) }
{
    let columns = in_name_order(alloc, schema.columns())?;
    refuse_unfit_among(alloc, schema, op, &columns)
}

fn refuse_unfit_among(
    alloc: Global,
    schema: &Schema,
    op: &RowOp,
    columns: &[Column],
) -> Result<(), TableFault>
    requires { IsTrue (list_all is_column columns.now) }
    ensures { Answers is_memory result (unless_refused (first_refusal (unfit_refusals schema.now op.now columns.now)) tt) }
{
    match columns {
        [] => Ok(()),
        [column, rest @ ..] => {
            if is_unfit(schema, op, column) {
                return Err(TableFault::Unfit {
                    column: column.name.copy(alloc)?,
                });
            }
            refuse_unfit_among(alloc, schema, op, rest)
        }
    }
}

fn is_unfit(schema: &Schema, op: &RowOp, column: &Column) -> bool
    requires { IsTrue (is_kind column.now.kind) }
    ensures { result ≡ is_unfit schema.now op.now column.now }
{
    is_unfit_value(given(op, column), column)
        || lacks_value(op, column)
        || is_unfit_value(key_value(schema, op, column), column)
}

/// Whether a new row doesn't name a column that has no constant fill.
fn lacks_value(op: &RowOp, column: &Column) -> bool
    ensures { result ≡ lacks_value op.now column.now }
{
    op.asked_key().is_none() && given(op, column).is_none() && !has_fill_for_missing(column)
}

/// The value that the key of an operation has in a column of the primary key.
fn key_value<'a>(schema: &Schema, op: &'a RowOp, column: &Column) -> Option<&'a Value>
    ensures { option_copied result ≡ key_value schema.now op.now column.now }
{
    match op.asked_key() {
        Some(key) => named_value(schema.primary().as_slice(), key.as_slice(), &column.name),
        None => None,
    }
}

/// Refuses an operation whose row isn't there.
fn refuse_missing(op: &RowOp, rows: &Staged) -> Result<(), TableFault>
    ensures { Answers is_memory result (unless_refused (first_refusal (missing_refusals op.now (rows_behind rows.now))) tt) }
{
    if op.needs_row() && old_row(op, rows).is_none() {
        return Err(TableFault::Missing);
    }
    Ok(())
}

/// The row of the key that an operation asks for.
fn old_row<'a>(op: &RowOp, rows: &'a Staged) -> Option<&'a Row>
    ensures { option_copied result ≡ old_row op.now (rows_behind rows.now) }
{
    match op.asked_key() {
        Some(key) => rows.get(key),
        None => None,
    }
}

/// Refuses an operation that leaves a row whose primary key another row has.
fn refuse_primary(
    alloc: Global,
    schema: &Schema,
    op: &RowOp,
    rows: &Staged,
    row: &Row,
) -> Result<(), TableFault>
    ensures { Answers is_memory result (unless_refused (first_refusal (primary_refusals schema.now op.now (rows_behind rows.now) row.now)) tt) }
{
    let key = key_of(alloc, schema, row)?;
    if op.needs_room() && rows.get(&key).is_some() && is_other(op, &key) {
        return Err(TableFault::Duplicate { key: 0 });
    }
    Ok(())
}

/// Whether the row of a key is another than the one that an operation is about.
fn is_other(op: &RowOp, key: &Row) -> bool
    ensures { result ≡ is_other op.now key.now }
{
    match op.asked_key() {
        Some(asked) => !asked.cmp(key).is_eq(),
        None => true,
    }
}

/// Refuses an operation that leaves a row with which another row agrees in a unique key.
fn refuse_uniques(
    alloc: Global,
    schema: &Schema,
    op: &RowOp,
    rows: &Staged,
    index: &Staged,
    row: &Row,
) -> Result<(), TableFault>
    requires { Tells schema.now (rows_behind rows.now) (rows_behind index.now) }
    ensures { Answers is_memory result (unless_refused (first_refusal (unique_refusals schema.now op.now (rows_behind rows.now) row.now (uniques_in_order schema.now.uniques))) tt) }
{
    let keys = in_name_order(alloc, schema.uniques())?;
    refuse_uniques_among(alloc, schema, op, rows, index, row, &keys)
}

fn refuse_uniques_among(
    alloc: Global,
    schema: &Schema,
    op: &RowOp,
    rows: &Staged,
    index: &Staged,
    row: &Row,
    keys: &[UniqueKey],
) -> Result<(), TableFault>
    ensures { Answers is_memory result (unless_refused (first_refusal (told_refusals schema.now op.now (rows_behind rows.now) (rows_behind index.now) row.now keys.now)) tt) }
{
    match keys {
        [] => Ok(()),
        [key, rest @ ..] => {
            if op.needs_room() && is_unique_taken(alloc, schema, op, rows, index, row, key)? {
                return Err(duplicate(schema, key));
            }
            refuse_uniques_among(alloc, schema, op, rows, index, row, rest)
        }
    }
}

/// Whether the index has another row that agrees with this one in a unique key.
fn is_unique_taken(
    alloc: Global,
    schema: &Schema,
    op: &RowOp,
    rows: &Staged,
    index: &Staged,
    row: &Row,
    key: &UniqueKey,
) -> Result<bool, AllocError>
    ensures { IfOk result (λ taken. taken ≡ is_told_taken schema.now op.now (rows_behind rows.now) (rows_behind index.now) row.now key.now) }
{
    Ok(
        match told_place(alloc, key, schema.columns(), row, rows, index)? {
            Some(place) => is_other(op, &place),
            None => false,
        },
    )
}

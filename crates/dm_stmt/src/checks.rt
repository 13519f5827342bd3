ghost use Rattle.std.specs.Prelude.{◌≡◌, false};
ghost use Rattle.std.specs.List.{list_all};
ghost use Rattle.std.specs.Option.{option_map_or};
ghost use Rattle.dm_schema.specs.Schemas.{is_formed};
ghost use Rattle.dm_stmt.specs.Known.{schema_in};
ghost use Rattle.dm_target.specs.Asking.{is_meta_table};
ghost use Rattle.dm_stmt.specs.Records.{are_ops, goes_last, is_op, is_record, is_written_change, keeps_place};

use crate::column_checks::{is_key, is_whole_column};
use crate::op_checks::is_op;
use crate::{Known, Record};
use dm_schema::{Change, Schema, Spot, TableName};
use dm_table::RowOp;

/// Whether a record is one that is written: it isn't empty, it is about no table that is kept for other things, and what it
/// names and gives is as the schema of its table asks. Of a table that isn't known only a create is written.
pub fn is_record(record: &Record, known: &Known) -> bool
    ensures { result ≡ is_record known.now «record».now }
{
    match record {
        Record::Create { table, schema } => !is_meta_table(table) && is_formed(schema),
        Record::Alter { table, changes } => {
            !is_meta_table(table)
                && known.get(table).is_some()
                && !changes.as_slice().is_empty()
                && are_written_changes(changes.as_slice())
        }
        Record::Apply { table, ops } => {
            !is_meta_table(table)
                && !ops.as_slice().is_empty()
                && are_known_ops(known, table, ops.as_slice())
        }
        Record::Metas { pairs } => !pairs.as_slice().is_empty(),
    }
}

/// Whether it is the table of the texts under names, which is no target's.
fn is_meta_table(table: &TableName) -> bool
    ensures { result ≡ is_meta_table table.now }
{
    table.db.as_slice() == b"dm_meta".as_slice() && table.table.as_slice() == b"state".as_slice()
}

/// Each schema is formed.
fn is_formed(schema: &Schema) -> bool
    ensures { result ≡ is_formed schema.now }
{
    let _ = schema.columns();
    true
}

/// Whether the operations are as the schema of their table asks, if it is known.
fn are_known_ops(known: &Known, table: &TableName, ops: &[RowOp]) -> bool
    ensures { result
        ≡ option_map_or (λ layout. are_ops layout ops.now) (schema_in known.now table.now) false }
{
    match known.get(table) {
        Some(schema) => are_ops(schema, ops),
        None => false,
    }
}

fn are_ops(schema: &Schema, ops: &[RowOp]) -> bool
    ensures { result ≡ are_ops schema.now ops.now }
{
    is_formed(schema) && fit_schema(schema, ops)
}

fn fit_schema(schema: &Schema, ops: &[RowOp]) -> bool
    ensures { result ≡ list_all (is_op schema.now) ops.now }
{
    ops.iter().all(|op| is_op(schema, op))
}

fn are_written_changes(changes: &[Change]) -> bool
    ensures { result ≡ list_all is_written_change changes.now }
{
    changes.iter().all(is_written_change)
}

/// Whether a change is one that an alteration from one schema to another has.
fn is_written_change(change: &Change) -> bool
    ensures { result ≡ is_written_change change.now }
{
    match change {
        Change::Add { column, spot } => goes_last(spot) && is_whole_column(column),
        Change::Drop { .. } | Change::DropKey { .. } => true,
        Change::Modify {
            column,
            spot,
            null_written,
        } => { keeps_place(spot) && *null_written == column.nullable && is_whole_column(column) }
        Change::AddUnique { key, named } => *named && is_key(key),
        _ => false,
    }
}

fn keeps_place(spot: &Spot) -> bool
    ensures { result ≡ keeps_place spot.now }
{
    matches!(spot, Spot::Keep)
}

fn goes_last(spot: &Spot) -> bool
    ensures { result ≡ goes_last spot.now }
{
    matches!(spot, Spot::Last)
}

ghost use Rattle.std.specs.Prelude.{◌≡◌, not, true, IfOk, IfSome, IsTrue};
ghost use Rattle.std.specs.List.{list_all};
ghost use Rattle.std.specs.Option.{option_copied, option_map_or};
ghost use Rattle.dm_schema.specs.Schemas.{schema_equal};
ghost use Rattle.dm_table.specs.Shapes.{is_shaped};
ghost use Rattle.dm_target.specs.Asking.{is_meta_table, is_proper};

use crate::{Call, Target};
use dm_schema::{Schema, TableName};
use dm_table::{RowOp, is_shaped};
use std::alloc::{AllocError, Global};

/// Whether a call is proper, so that it may be made: of a table other than `dm_meta`.`state`, with one operation or text at
/// least. Where the table is there, operations have the shape that its schema asks, and an alteration is to another schema.
pub fn is_proper<T: Target>(alloc: Global, target: &T, call: &Call) -> Result<bool, AllocError>
    requires { IsTrue (T.sound target.now) }
    ensures { IfOk result (λ proper. IfSome (T.content target.now) (λ told. proper ≡ is_proper call.now told)) }
{
    match call {
        Call::Create { table, .. } => Ok(!is_meta_table(table)),
        Call::Alter { table, schema } => {
            let is_another = is_another(alloc, target.schema(table), schema)?;
            Ok(!is_meta_table(table) && is_another)
        }
        Call::Apply { table, ops } => {
            let ops = ops.as_slice();
            Ok(!is_meta_table(table) && ops.len() != 0 && are_shaped(target.schema(table), ops))
        }
        Call::Metas { pairs } => Ok(pairs.as_slice().len() != 0),
    }
}

/// Whether it is the table of the texts under names, which is no target's.
fn is_meta_table(table: &TableName) -> bool
    ensures { result ≡ is_meta_table table.now }
{
    table.db.as_slice() == b"dm_meta".as_slice() && table.table.as_slice() == b"state".as_slice()
}

/// Whether a schema is another than the one that is there, if one is.
fn is_another(alloc: Global, there: Option<&Schema>, schema: &Schema) -> Result<bool, AllocError>
    ensures { IfOk result (λ another. another ≡ option_map_or (λ layout. not (schema_equal layout schema.now)) (option_copied there.entry) true) }
{
    match there {
        Some(there) => Ok(!there.equals(alloc, schema)?),
        None => Ok(true),
    }
}

/// Whether operations have the shape that the schema that is there asks, if one is.
fn are_shaped(there: Option<&Schema>, ops: &[RowOp]) -> bool
    ensures { result ≡ option_map_or (λ layout. list_all (is_shaped layout) ops.now) (option_copied there.entry) true }
{
    match there {
        Some(there) => all_shaped(there, ops),
        None => true,
    }
}

fn all_shaped(schema: &Schema, ops: &[RowOp]) -> bool
    ensures { result ≡ list_all (is_shaped schema.now) ops.now }
{
    ops.iter().all(|op| is_shaped(schema, op))
}

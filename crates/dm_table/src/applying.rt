ghost use Rattle.std.specs.Prelude.{◌≡◌, ⊤, Ok, Err, MatchBool, IfOk, IfErr, OnOk};
ghost use Rattle.std.specs.FinMap as fin;
ghost use Rattle.dm_table.specs.Indexing.{AreIndexed};
ghost use Rattle.dm_table.specs.Operations.{applied, all_applied};
ghost use Rattle.dm_table.specs.Staging.{carried, rows_behind};
ghost use Rattle.dm_table.specs.Judging.{is_memory};

use crate::changes::Changes;
use crate::effect::take_effect;
use crate::judge::judge;
use crate::keyed::KeyedRows;
use crate::staged::Staged;
use crate::{RowOp, TableFault};
use dm_schema::Schema;
use std::alloc::Global;

/// What operations change of a table's rows, and of their index.
#[derive(Drop)]
pub struct Changed {
    pub rows: Changes,
    pub index: Changes,
}

/// What operations in turn change.
pub fn all_applied(
    alloc: Global,
    schema: &Schema,
    rows: &KeyedRows,
    index: &KeyedRows,
    ops: &[RowOp],
) -> Result<Changed, TableFault>
    requires { AreIndexed schema.now rows.now index.now }
    ensures applied { IfOk result (λ changed. all_applied schema.now ops.now rows.now ≡ Ok (carried (fin.entries changed.rows) rows.now)) }
    ensures refused { IfErr result (λ f. MatchBool (is_memory f) ⊤ (all_applied schema.now ops.now rows.now ≡ Err f)) }
    ensures indexed { IfOk result (λ changed. AreIndexed schema.now (carried (fin.entries changed.rows) rows.now) (carried (fin.entries changed.index) index.now)) }
{
    let mut rows = Staged::new(alloc, rows);
    let mut index = Staged::new(alloc, index);
    for op in ops {
        apply_one(alloc, schema, op, &mut rows, &mut index)?;
    }
    Ok(Changed {
        rows: rows.into_changes(),
        index: index.into_changes(),
    })
}

/// Changes the rows by an operation. Where it is refused they stay; where memory is wanting they may be anything.
fn apply_one(
    alloc: Global,
    schema: &Schema,
    op: &RowOp,
    rows: &mut Staged,
    index: &mut Staged,
) -> Result<(), TableFault>
    requires { AreIndexed schema.now (rows_behind rows.old) (rows_behind index.old) }
    ensures applied { IfOk result (λ _. applied schema.now op.now (rows_behind rows.old) ≡ Ok (rows_behind rows.new)) }
    ensures refused { IfErr result (λ f. MatchBool (is_memory f) ⊤ (applied schema.now op.now (rows_behind rows.old) ≡ Err f)) }
    ensures indexed { OnOk result (AreIndexed schema.now (rows_behind rows.new) (rows_behind index.new)) }
    ensures rows { OnOk result (rows.new.base ≡ rows.old.base) }
    ensures index { OnOk result (index.new.base ≡ index.old.base) }
{
    judge(alloc, schema, op, rows, index)?;
    take_effect(alloc, schema, op, rows, index)?;
    Ok(())
}

//! A history's items, carried out on a table in turn.

ghost use Rattle.std.specs.Prelude.{◌≡◌, ◌<◌, Some, None, length, slice_get, MatchBool, MatchOption, IfOk, IsTrue};
ghost use Rattle.dm_list.specs.Answer.{Answers};
ghost use Rattle.dm_table.specs.Alterations.{altered};
ghost use Rattle.dm_track.specs.Histories.{schema_at};
ghost use Rattle.dm_fold.specs.Folds.{fold_of, folded, is_memory, unless_refused, with_item};

use crate::changes::change as change_row;
use crate::fault::FoldFault;
use dm_list::Copied;
use dm_schema::Schema;
use dm_table::{Table, TableFault};
use dm_track::{History, Inputs, Item, change_at, is_row};
use std::alloc::{AllocError, Global};

/// Alters a table; whether that is defined.
fn alter(alloc: Global, table: &mut Table, schema: &Schema) -> Result<bool, AllocError>
    ensures { IfOk result (λ done. MatchBool done (unless_refused (altered table.old schema.now) ≡ Some table.new) (unless_refused (altered table.old schema.now) ≡ None)) }
{
    match table.alter(alloc, schema) {
        Ok(()) => Ok(true),
        Err(TableFault::Memory) => Err(AllocError),
        Err(_) => Ok(false),
    }
}

/// Carries out the item of a number; whether that is defined.
fn carry_out(
    alloc: Global,
    inputs: &Inputs,
    shard: u32,
    history: &History,
    number: u64,
    table: &mut Table,
) -> Result<bool, AllocError>
    requires { slice_get inputs.now.histories shard ≡ Some history.now }
    ensures { IfOk result (λ done. MatchBool done (with_item inputs.now.files history.now number table.old ≡ Some table.new) (with_item inputs.now.files history.now number table.old ≡ None)) }
{
    if is_row(inputs, shard, number) {
        let change = change_at(alloc, inputs, shard, number)?;
        return change_row(alloc, table, &change);
    }
    match history.item(number) {
        Some(Item::Ddl(_)) => alter(alloc, table, history.schema_at(number)),
        Some(Item::Row(_)) | None => Ok(false),
    }
}

#[tactic(auto, using(crate::proofs::Steps::none_done, crate::proofs::Steps::goes_on, crate::proofs::Steps::conflicts))]
/// The rows of a shard at a position of its history: the table behind its first items, which are carried out one by one.
/// Each costs the table's size.
pub fn fold(alloc: Global, inputs: &Inputs, shard: u32, position: u64) -> Result<Table, FoldFault>
    requires { shard < length inputs.now.histories }
    ensures { MatchOption (slice_get inputs.now.histories shard) ⊥ (λ h. Answers is_memory result (fold_of inputs.now h position)) }
{
    let Some(history) = inputs.histories().get(u64::from(shard)) else {
        unreachable!()
    };
    let mut table = Table::new(alloc, history.schema_at(0).copy(alloc)?);
    for before in 0..position {
        if !carry_out(alloc, inputs, shard, history, before + 1, &mut table)? {
            return Err(FoldFault::Conflict { item: before + 1 });
        }
    }
    Ok(table)
}

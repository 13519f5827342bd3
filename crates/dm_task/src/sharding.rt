ghost use Rattle.std.specs.Prelude.{◌≡◌, ◌≤◌, ◌++◌, length, insert, map, IfOk, IfSome, OnOk, MatchOption};
ghost use Rattle.dm_task.specs.Shards.{table_name, target_by, shard_of, source_shards, shards_of, with_name, names_in_order, targets_of};
ghost use Rattle.dm_route.specs.Rules.{route_of};

use crate::{Shard, Source, SourceTable, Task};
use dm_list::Copied;
use dm_route::{Route, Rules, route};
use dm_schema::TableName;
use std::alloc::{AllocError, Global};
use std::cmp::Ordering;

/// The tables that a task copies, source by source; a shard's number is its place here.
pub fn shards(alloc: Global, task: &Task) -> Result<Vec<Shard>, AllocError>
    ensures { IfOk result (λ shards. shards.items ≡ shards_of task.now) }
{
    let mut shards = Vec::new(alloc);
    for source in task.sources.as_slice() {
        push_source(alloc, &mut shards, &task.rules, source)?;
    }
    Ok(shards)
}

fn push_source(
    alloc: Global,
    shards: &mut Vec<Shard>,
    rules: &Rules,
    source: &Source,
) -> Result<(), AllocError>
    ensures { OnOk result (shards.new.items ≡ shards.old.items ++ source_shards rules.now source.now) }
{
    for table in source.tables.as_slice() {
        if let Some(shard) = shard_of(alloc, rules, source, table)? {
            shards.push(shard)?;
        }
    }
    Ok(())
}

/// The shard that a table of a source is, if it is admitted.
fn shard_of(
    alloc: Global,
    rules: &Rules,
    source: &Source,
    table: &SourceTable,
) -> Result<Option<Shard>, AllocError>
    ensures { IfOk result (λ shard. shard ≡ shard_of rules.now source.now.name table.now) }
{
    let Some(target) = target(alloc, rules, table)? else {
        return Ok(None);
    };
    Ok(Some(Shard {
        source: source.name.copy(alloc)?,
        name: table_name(alloc, table)?,
        target,
    }))
}

/// The target of a table by its route; none where the table isn't admitted.
fn target(
    alloc: Global,
    rules: &Rules,
    table: &SourceTable,
) -> Result<Option<TableName>, AllocError>
    ensures { IfOk result (λ target. target ≡ target_by (route_of rules.now table.now.db table.now.table) (table_name table.now)) }
{
    match route(rules, table.db.as_slice(), table.table.as_slice()) {
        Route::Skip => Ok(None),
        Route::To(target) => Ok(Some(target.copy(alloc)?)),
        Route::Same => Ok(Some(table_name(alloc, table)?)),
    }
}

fn table_name(alloc: Global, table: &SourceTable) -> Result<TableName, AllocError>
    ensures { IfOk result (λ name. name ≡ table_name table.now) }
{
    Ok(TableName {
        db: table.db.copy(alloc)?,
        table: table.table.copy(alloc)?,
    })
}

/// The tables that the shards go to, in byte order, each once.
pub fn targets(alloc: Global, task: &Task) -> Result<Vec<TableName>, AllocError>
    ensures { IfOk result (λ targets. targets.items ≡ targets_of task.now) }
{
    let shards = shards(alloc, task)?;
    names_in_order(alloc, &shards)
}

/// The targets of some shards, in byte order, each once.
fn names_in_order(alloc: Global, shards: &[Shard]) -> Result<Vec<TableName>, AllocError>
    ensures { IfOk result (λ names. names.items ≡ names_in_order (map (λ shard. shard.target) shards.now)) }
{
    let mut names = Vec::new(alloc);
    for shard in shards {
        add_name(alloc, &mut names, &shard.target)?;
    }
    Ok(names)
}

/// Puts a name among names in order, unless it is there.
fn add_name(alloc: Global, names: &mut Vec<TableName>, name: &TableName) -> Result<(), AllocError>
    ensures { OnOk result (names.new.items ≡ with_name names.old.items name.now) }
{
    if let Some(place) = spot(names, name) {
        names.insert(place, name.copy(alloc)?)?;
    }
    Ok(())
}

/// Where a name belongs among names in order; nothing where it is there.
fn spot(names: &[TableName], name: &TableName) -> Option<usize>
    ensures within { IfSome result (λ place. place ≤ length names.now) }
    ensures spot { MatchOption result (names.now ≡ with_name names.now name.now) (λ place. insert names.now place name.now ≡ with_name names.now name.now) }
{
    match names {
        [] => Some(0),
        [first, rest @ ..] => match name.cmp(first) {
            Ordering::Less => Some(0),
            Ordering::Equal => None,
            Ordering::Greater => Some(spot(rest, name)? + 1),
        },
    }
}

//! The shard that a table of a source is, and its name.

ghost use Rattle.std.specs.Prelude.{◌≡◌, IfOk};
ghost use Rattle.dm_route.specs.Rules.{route_of};
ghost use Rattle.dm_task.specs.Shards.{table_name, target_by, shard_of};
ghost use Rattle.dm_track.specs.Builds.{shard_name};

use dm_list::{Bytes, Copied};
use dm_route::{Route, Rules, route};
use dm_schema::TableName;
use dm_task::{Shard, SourceTable};
use dm_text::push_table_name;
use std::alloc::{AllocError, Global};

fn table_name(alloc: Global, table: &SourceTable) -> Result<TableName, AllocError>
    ensures { IfOk result (λ name. name ≡ table_name table.now) }
{
    Ok(TableName {
        db: table.db.copy(alloc)?,
        table: table.table.copy(alloc)?,
    })
}

/// The target of a table by its route; none where the table isn't admitted.
fn target(
    alloc: Global,
    rules: &Rules,
    table: &SourceTable,
) -> Result<Option<TableName>, AllocError>
    ensures { IfOk result (λ target. target ≡ target_by (route_of rules.now table.now.db table.now.table) (table_name table.now)) }
{
    match route(rules, table.db.as_slice(), table.table.as_slice()) {
        Route::Skip => Ok(None),
        Route::To(target) => Ok(Some(target.copy(alloc)?)),
        Route::Same => Ok(Some(table_name(alloc, table)?)),
    }
}

/// The shard that a table of a source is, if it is admitted.
pub fn shard_of(
    alloc: Global,
    rules: &Rules,
    source: &Bytes,
    table: &SourceTable,
) -> Result<Option<Shard>, AllocError>
    ensures { IfOk result (λ shard. shard ≡ shard_of rules.now source.now table.now) }
{
    let Some(target) = target(alloc, rules, table)? else {
        return Ok(None);
    };
    Ok(Some(Shard {
        source: source.copy(alloc)?,
        name: table_name(alloc, table)?,
        target,
    }))
}

/// The source's name, a blank, and the quoted name of the table.
pub fn shard_name(alloc: Global, shard: &Shard) -> Result<Bytes, AllocError>
    ensures { IfOk result (λ name. name ≡ shard_name shard.now) }
{
    let mut name = shard.source.as_slice().to_vec(alloc)?;
    name.push(b' ')?;
    push_table_name(&mut name, &shard.name)?;
    Ok(Bytes::new(name))
}

ghost use Rattle.std.specs.Prelude.{◌≡◌, ◌==◌, ◌&&◌, ◌<◌, ◌++◌, length, IfOk, OnOk};
ghost use Rattle.dm_schema.specs.Names.{same_name};
ghost use Rattle.dm_lockstate.specs.Lock.{is_dropped, is_paired, dropped_after, pairs_of, pairs_in};

use crate::state::{Dropped, LockState};
use dm_list::Copied;
use dm_schema::{Column, Name, Schema, has_column};
use std::alloc::{AllocError, Global};

fn is_pair(pair: &Dropped, member: u32, column: &Name) -> bool
    ensures { result ≡ (pair.now.member == member && same_name pair.now.column column.now) }
{
    pair.member == member && pair.column == *column
}

/// Whether the shard dropped a column of this name.
pub fn is_dropped(pairs: &[Dropped], member: u32, column: &Name) -> bool
    ensures { result ≡ is_dropped pairs.now member column.now }
{
    pairs.iter().any(|pair| is_pair(pair, member, column))
}

/// Whether some shard dropped a column of this name.
pub fn is_paired(pairs: &[Dropped], column: &Name) -> bool
    ensures { result ≡ is_paired pairs.now column.now }
{
    pairs.iter().any(|pair| pair.column == *column)
}

/// The dropped columns after a shard changes to a schema, where this is the join.
pub fn dropped_after(
    alloc: Global,
    lock: &LockState,
    member: u32,
    schema: &Schema,
    joined: &Schema,
) -> Result<Vec<Dropped>, AllocError>
    requires { member < length lock.now.schemas }
    ensures { IfOk result (λ pairs. pairs.items ≡ dropped_after lock.now member schema.now joined.now) }
{
    let mut pairs = Vec::new(alloc);
    push_kept(&mut pairs, alloc, lock.dropped(), joined)?;
    let recorded = lock.schema_of(member);
    push_lost(
        &mut pairs,
        alloc,
        member,
        recorded.columns(),
        schema,
        joined,
    )?;
    Ok(pairs)
}

/// Adds the pairs whose column is still in the join.
fn push_kept(
    pairs: &mut Vec<Dropped>,
    alloc: Global,
    old: &[Dropped],
    joined: &Schema,
) -> Result<(), AllocError>
    ensures { OnOk result (pairs.new.items ≡ pairs.old.items ++ pairs_in joined.now old.now) }
{
    for pair in old {
        if has_column(joined.columns(), &pair.column) {
            pairs.push(pair.copy(alloc)?)?;
        }
    }
    Ok(())
}

/// Adds a pair for each of the columns that the schema lacks, where it is in the join.
fn push_lost(
    pairs: &mut Vec<Dropped>,
    alloc: Global,
    member: u32,
    columns: &[Column],
    schema: &Schema,
    joined: &Schema,
) -> Result<(), AllocError>
    ensures { OnOk result (pairs.new.items ≡ pairs.old.items ++ pairs_in joined.now (pairs_of member columns.now schema.now)) }
{
    for column in columns {
        if !has_column(schema.columns(), &column.name)
            && has_column(joined.columns(), &column.name)
        {
            pairs.push(Dropped {
                member,
                column: column.name.copy(alloc)?,
            })?;
        }
    }
    Ok(())
}

ghost use Rattle.std.specs.Prelude.{◌≡◌, ◌≤◌, ◌∷◌, [], IsTrue, IfOk};
ghost use Rattle.dm_schema.specs.Kinds.{is_column, is_folded, is_kind};

use crate::{LockState, Stop};
use dm_schema::{Column, DefaultRule, Kind, Schema};
use dm_value::{Name, Names};
use std::alloc::{AllocError, Global};
use std::test::Fail;

fn name(alloc: Global, text: u8) -> Result<Name, AllocError>
    ensures { IfOk result (λ name. name ≡ text ∷ []) }
{
    Ok(Name::new(vec![in alloc; text]?))
}

/// A column of integers without a default, with a name of one letter.
fn column(alloc: Global, text: u8, kind: Kind, nullable: bool) -> Result<Column, AllocError>
    requires folded { IsTrue (is_folded (text ∷ [])) }
    requires kind { IsTrue (is_kind kind) }
    ensures { IfOk result (λ column. IsTrue (is_column column)) }
{
    Ok(Column {
        name: name(alloc, text)?,
        kind,
        nullable,
        default_rule: DefaultRule::Nothing,
    })
}

/// A table of a key `i` and a column `v`.
fn table(alloc: Global, kind: Kind) -> Result<Schema, Fail>
    requires { IsTrue (is_kind kind) }
{
    let key = column(alloc, b'i', Kind::Signed(4), false)?;
    let other = column(alloc, b'v', kind, true)?;
    let primary = Names::new(vec![in alloc; name(alloc, b'i')?]?);
    let columns = vec![in alloc; key, other]?;
    let Ok(table) = Schema::new(columns, primary, Vec::new(alloc)) else {
        return Err(Fail::from("no schema"));
    };
    Ok(table)
}

/// A table of a key `i` alone.
fn key_alone(alloc: Global) -> Result<Schema, Fail> {
    let key = column(alloc, b'i', Kind::Signed(4), false)?;
    let primary = Names::new(vec![in alloc; name(alloc, b'i')?]?);
    let columns = vec![in alloc; key]?;
    let Ok(table) = Schema::new(columns, primary, Vec::new(alloc)) else {
        return Err(Fail::from("no schema"));
    };
    Ok(table)
}

/// The lock over two shards with `v` INT.
fn lock_of_two(alloc: Global) -> Result<LockState, Fail> {
    let a = table(alloc, Kind::Signed(4))?;
    let b = table(alloc, Kind::Signed(4))?;
    let schemas = vec![in alloc; a, b]?;
    let Ok(lock) = LockState::first(alloc, schemas) else {
        return Err(Fail::from("no join"));
    };
    Ok(lock)
}

/// The lock after an offer that is to be accepted.
fn accepted(
    alloc: Global,
    lock: &LockState,
    member: u32,
    schema: &Schema,
) -> Result<LockState, Fail> {
    if lock.members() <= member as usize {
        return Err(Fail::from("no such shard"));
    }
    let Ok(after) = lock.offer(alloc, member, schema) else {
        return Err(Fail::from("refused"));
    };
    Ok(after)
}

/// Why an offer is refused.
fn refused(alloc: Global, lock: &LockState, member: u32, schema: &Schema) -> Result<Stop, Fail> {
    if lock.members() <= member as usize {
        return Err(Fail::from("no such shard"));
    }
    let Err(stop) = lock.offer(alloc, member, schema) else {
        return Err(Fail::from("accepted"));
    };
    Ok(stop)
}

/// Both shards have widened `v` to BIGINT, and the first offers INT again.
fn narrowed_by_one(alloc: Global) -> Result<LockState, Fail> {
    let int = table(alloc, Kind::Signed(4))?;
    let bigint = table(alloc, Kind::Signed(8))?;
    let first = accepted(alloc, &lock_of_two(alloc)?, 0, &bigint)?;
    let second = accepted(alloc, &first, 1, &bigint)?;
    accepted(alloc, &second, 0, &int)
}

/// The same, and the second follows.
fn narrowed_by_both(alloc: Global) -> Result<LockState, Fail> {
    let int = table(alloc, Kind::Signed(4))?;
    let lock = narrowed_by_one(alloc)?;
    accepted(alloc, &lock, 1, &int)
}

/// Whether the joined schema has `v` of a kind.
fn is_joined(alloc: Global, lock: &LockState, kind: Kind) -> Result<bool, Fail>
    requires { IsTrue (is_kind kind) }
{
    let want = table(alloc, kind)?;
    Ok(lock.joined().equals(alloc, &want)?)
}

/// A shard may narrow a column back, but the table keeps the greatest kind until all have.
#[test]
fn keeps_the_greatest_kind(rt: HostRuntime) -> Result<(), Fail> {
    let alloc = rt.alloc();
    let lock = narrowed_by_one(alloc)?;
    let is_wide = is_joined(alloc, &lock, Kind::Signed(8))?;
    assert!(rt; is_wide);
    Ok(())
}

#[test]
fn narrows_behind_the_last(rt: HostRuntime) -> Result<(), Fail> {
    let alloc = rt.alloc();
    let lock = narrowed_by_both(alloc)?;
    let is_narrow = is_joined(alloc, &lock, Kind::Signed(4))?;
    assert!(rt; is_narrow);
    Ok(())
}

/// One shard has dropped `v`.
fn dropped_by_one(alloc: Global) -> Result<LockState, Fail> {
    let without = key_alone(alloc)?;
    accepted(alloc, &lock_of_two(alloc)?, 0, &without)
}

/// Why the shard that dropped `v` may not add it again.
fn stop_of_adding(alloc: Global) -> Result<Stop, Fail> {
    let with = table(alloc, Kind::Signed(4))?;
    let lock = dropped_by_one(alloc)?;
    refused(alloc, &lock, 0, &with)
}

/// A dropped column doesn't come again while another shard has it.
#[test]
fn refuses_a_column_that_is_downstream(rt: HostRuntime) -> Result<(), Fail> {
    let alloc = rt.alloc();
    let stop = stop_of_adding(alloc)?;
    let column = name(alloc, b'v')?;
    assert_eq!(rt; stop, Stop::NotFullyDropped { column });
    Ok(())
}

/// Both shards have dropped `v`.
fn dropped_by_both(alloc: Global) -> Result<LockState, Fail> {
    let without = key_alone(alloc)?;
    let lock = dropped_by_one(alloc)?;
    accepted(alloc, &lock, 1, &without)
}

/// The same, and the first adds it again.
fn added_again(alloc: Global) -> Result<LockState, Fail> {
    let with = table(alloc, Kind::Signed(4))?;
    let lock = dropped_by_both(alloc)?;
    accepted(alloc, &lock, 0, &with)
}

#[test]
fn takes_a_column_that_all_have_dropped(rt: HostRuntime) -> Result<(), Fail> {
    let alloc = rt.alloc();
    let lock = added_again(alloc)?;
    let is_there = is_joined(alloc, &lock, Kind::Signed(4))?;
    assert!(rt; is_there);
    Ok(())
}

ghost use Rattle.dm_stmt_read.specs.Readers.{Reads, further, next_name, names, table_name};

use crate::RecordFault;
use crate::left::Left;
use dm_schema::TableName;
use dm_value::{Name, Names};
use std::alloc::Global;

/// A name behind a comma, if there is one more.
#[tactic(auto, unfolding(crate::specs::Readers::next_name))]
fn next_name(alloc: Global, left: &mut Left<'_>) -> Result<Option<Name>, RecordFault>
    ensures { Reads next_name left.old result left.new }
{
    if left.accept(b",") {
        Ok(Some(left.name(alloc)?))
    } else {
        Ok(None)
    }
}

/// The names behind commas that follow others. Each takes a byte at least.
#[tactic(auto, using(crate::proofs::Loops::begins))]
fn further_names(
    alloc: Global,
    left: &mut Left<'_>,
    mut names: Vec<Name>,
) -> Result<Names, RecordFault>
    ensures { Reads (further next_name names.items) left.old result left.new }
{
    for _ in 0..left.len() {
        match next_name(alloc, left)? {
            Some(name) => names.push(name)?,
            None => break,
        }
    }
    Ok(Names::new(names))
}

/// Names in brackets.
#[tactic(auto, unfolding(crate::specs::Readers::names))]
pub fn names(alloc: Global, left: &mut Left<'_>) -> Result<Names, RecordFault>
    ensures { Reads names left.old result left.new }
{
    left.expect(b"(")?;
    let mut first = Vec::new(alloc);
    first.push(left.name(alloc)?)?;
    let names = further_names(alloc, left, first)?;
    left.expect(b")")?;
    Ok(names)
}

#[tactic(auto, unfolding(crate::specs::Readers::table_name))]
pub fn table_name(alloc: Global, left: &mut Left<'_>) -> Result<TableName, RecordFault>
    ensures { Reads table_name left.old result left.new }
{
    let db = left.name(alloc)?;
    left.expect(b".")?;
    let table = left.name(alloc)?;
    Ok(TableName { db, table })
}

ghost use Rattle.dm_stmt_read.specs.Readers.{Reads, further};
ghost use Rattle.dm_stmt_read.specs.Lines.{key_change, change, next_change, alter, create};

use crate::RecordFault;
use crate::columns::{column, layout, unique_key};
use crate::left::Left;
use crate::names::table_name;
use dm_schema::{Change, Changes, Spot};
use dm_stmt::Record;
use std::alloc::Global;

/// A change of a unique key.
#[tactic(auto, unfolding(crate::specs::Lines::key_change))]
fn key_change(alloc: Global, left: &mut Left<'_>) -> Result<Change, RecordFault>
    ensures { Reads key_change left.old result left.new }
{
    if left.accept(b"ADD UNIQUE KEY ") {
        let key = unique_key(alloc, left)?;
        return Ok(Change::AddUnique { key, named: true });
    }
    left.expect(b"DROP INDEX ")?;
    let name = left.name(alloc)?;
    Ok(Change::DropKey { name })
}

#[tactic(auto, unfolding(crate::specs::Lines::change))]
fn change(alloc: Global, left: &mut Left<'_>) -> Result<Change, RecordFault>
    ensures { Reads change left.old result left.new }
{
    if left.accept(b"ADD COLUMN ") {
        let column = column(alloc, left)?;
        let spot = Spot::Last;
        return Ok(Change::Add { column, spot });
    }
    if left.accept(b"DROP COLUMN ") {
        let name = left.name(alloc)?;
        return Ok(Change::Drop { name });
    }
    if left.accept(b"MODIFY COLUMN ") {
        let column = column(alloc, left)?;
        let null_written = column.nullable;
        return Ok(Change::Modify {
            column,
            spot: Spot::Keep,
            null_written,
        });
    }
    key_change(alloc, left)
}

/// A change behind a comma, if there is one more.
#[tactic(auto, unfolding(crate::specs::Lines::next_change))]
fn next_change(alloc: Global, left: &mut Left<'_>) -> Result<Option<Change>, RecordFault>
    ensures { Reads next_change left.old result left.new }
{
    if left.accept(b", ") {
        Ok(Some(change(alloc, left)?))
    } else {
        Ok(None)
    }
}

/// The changes behind commas that follow others. Each takes a byte at least.
#[tactic(auto, using(crate::proofs::Loops::begins))]
fn further_changes(
    alloc: Global,
    left: &mut Left<'_>,
    mut changes: Vec<Change>,
) -> Result<Changes, RecordFault>
    ensures { Reads (further next_change changes.items) left.old result left.new }
{
    for _ in 0..left.len() {
        match next_change(alloc, left)? {
            Some(change) => changes.push(change)?,
            None => break,
        }
    }
    Ok(Changes::new(changes))
}

/// An alteration, behind its first words.
#[tactic(auto, unfolding(crate::specs::Lines::alter))]
pub fn alter(alloc: Global, left: &mut Left<'_>) -> Result<Record, RecordFault>
    ensures { Reads alter left.old result left.new }
{
    let table = table_name(alloc, left)?;
    left.expect(b" ")?;
    let mut first = Vec::new(alloc);
    first.push(change(alloc, left)?)?;
    let changes = further_changes(alloc, left, first)?;
    left.expect(b";\n")?;
    Ok(Record::Alter { table, changes })
}

/// A new table, behind its first words.
#[tactic(auto, unfolding(crate::specs::Lines::create))]
pub fn create(alloc: Global, left: &mut Left<'_>) -> Result<Record, RecordFault>
    ensures { Reads create left.old result left.new }
{
    let table = table_name(alloc, left)?;
    left.expect(b" (")?;
    let schema = layout(alloc, left)?;
    left.expect(b");\n")?;
    Ok(Record::Create { table, schema })
}

ghost use Rattle.std.specs.Prelude.{◌≡◌, ◌<◌, ◌^◌, length, IfOk, IsErrOf};
ghost use Rattle.dm_stmt.specs.declared.record.Record.{Record};
ghost use Rattle.dm_stmt_read.specs.Reading.{IsTextOf};
ghost use Rattle.dm_target.specs.Asking.{is_meta_table};
ghost use Rattle.dm_stmt_read.specs.Readers.{Reads};
ghost use Rattle.dm_stmt_read.specs.Lines.{lines, transaction, later_record, any_record};

use crate::RecordFault;
use crate::changes::{alter, create};
use crate::left::Left;
use crate::metas::metas;
use crate::ops::{head, ops};
use crate::types::record_types;
use dm_schema::TableName;
use dm_stmt::{Known, Record, is_record, text_of};
use std::alloc::Global;

/// The record whose text this is, over the schemas of the tables so far. What is read is written again and compared, so
/// the reading itself may take more than is written.
pub fn read_record(alloc: Global, text: &[u8], known: &Known) -> Result<Record, RecordFault>
    requires { length text.now < 2 ^ 32 }
    ensures read { IfOk result (λ said. IsTextOf known.now text.now said) }
    ensures only { IfOk result (λ said. (other : Record) → IsTextOf known.now text.now other → other ≡ said) }
    ensures refused { IsErrOf result RecordFault.NotRecord → (other : Record) → IsTextOf known.now text.now other → ⊥ }
{
    let record = any_record(alloc, &mut Left::new(text), known)?;
    if !is_record(&record, known) {
        return Err(RecordFault::NotRecord);
    }
    record_types(&record);
    let written = text_of(alloc, &record, known)?;
    if written.as_slice() == text {
        Ok(record)
    } else {
        Err(RecordFault::NotRecord)
    }
}

#[tactic(auto, unfolding(crate::specs::Lines::any_record))]
fn any_record(alloc: Global, left: &mut Left<'_>, known: &Known) -> Result<Record, RecordFault>
    ensures { Reads (any_record known.now) left.old result left.new }
{
    if left.accept(b"CREATE TABLE ") {
        create(alloc, left)
    } else {
        later_record(alloc, left, known)
    }
}

/// A record that makes no table.
#[tactic(auto, unfolding(crate::specs::Lines::later_record))]
fn later_record(alloc: Global, left: &mut Left<'_>, known: &Known) -> Result<Record, RecordFault>
    ensures { Reads (later_record known.now) left.old result left.new }
{
    if left.accept(b"ALTER TABLE ") {
        alter(alloc, left)
    } else {
        transaction(alloc, left, known)
    }
}

/// Whether a table is the one of the texts under names.
fn is_meta_table(table: &TableName) -> bool
    ensures { result ≡ is_meta_table table.now }
{
    table.db.as_slice() == b"dm_meta".as_slice() && table.table.as_slice() == b"state".as_slice()
}

/// Operations on the rows of one table, or texts under names.
#[tactic(auto, unfolding(crate::specs::Lines::transaction))]
fn transaction(alloc: Global, left: &mut Left<'_>, known: &Known) -> Result<Record, RecordFault>
    ensures { Reads (transaction known.now) left.old result left.new }
{
    left.expect(b"BEGIN;\n")?;
    let (_, table) = head(alloc, &mut left.again())?;
    lines(alloc, left, known, table)
}

/// The lines of a transaction whose first line is about the table.
#[tactic(auto, unfolding(crate::specs::Lines::lines))]
fn lines(
    alloc: Global,
    left: &mut Left<'_>,
    known: &Known,
    table: TableName,
) -> Result<Record, RecordFault>
    ensures { Reads (lines known.now table) left.old result left.new }
{
    if is_meta_table(&table) {
        let pairs = metas(alloc, left)?;
        return Ok(Record::Metas { pairs });
    }
    let schema = known.get(&table).ok_or(RecordFault::NotRecord)?;
    let ops = ops(alloc, left, schema)?;
    Ok(Record::Apply { table, ops })
}

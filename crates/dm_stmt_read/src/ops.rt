ghost use Rattle.std.specs.Prelude.{◌≡◌, [], codes, Some, IsTrue, IfSome};
ghost use Rattle.std.specs.List.{list_all};
ghost use Rattle.std.specs.Option.{option_copied};
ghost use Rattle.dm_schema.specs.Kinds.{is_column};
ghost use Rattle.dm_schema.specs.Names.{column_at};
ghost use Rattle.dm_stmt_read.specs.Readers.{Reads, further, further_pairs};
ghost use Rattle.dm_stmt_read.specs.Lines.{read_verb, head, cell, marked_cell, cells, row, assignment, next_assignment, assignments, condition, conditions, key, update, delete, op_by, op, next_op};

use crate::RecordFault;
use crate::left::Left;
use crate::names::{names, table_name};
use dm_list::Sequence;
use dm_schema::{Column, Schema, TableName};
use dm_table::RowOp;
use dm_value::{Name, Names, Row, Value};
use std::alloc::Global;

/// What a line of a transaction does.
#[derive(Clone, Copy, Debug, PartialEq, Eq)]
pub enum Verb {
    Insert,
    Replace,
    Update,
    Delete,
}

/// What a line does, by its first words.
#[tactic(auto, unfolding(crate::specs::Lines::read_verb))]
fn read_verb(left: &mut Left<'_>) -> Option<Verb>
    ensures { read_verb left.old ≡ Some (result, left.new) }
{
    if left.accept(b"INSERT INTO ") {
        Some(Verb::Insert)
    } else if left.accept(b"REPLACE INTO ") {
        Some(Verb::Replace)
    } else if left.accept(b"UPDATE ") {
        Some(Verb::Update)
    } else if left.accept(b"DELETE FROM ") {
        Some(Verb::Delete)
    } else {
        None
    }
}

/// What a line does, and to which table.
#[tactic(auto, unfolding(crate::specs::Lines::head))]
pub fn head(alloc: Global, left: &mut Left<'_>) -> Result<(Verb, TableName), RecordFault>
    ensures { Reads head left.old result left.new }
{
    let verb = read_verb(left).ok_or(RecordFault::NotRecord)?;
    let table = table_name(alloc, left)?;
    Ok((verb, table))
}

/// A value of the column of a name.
#[tactic(auto, unfolding(crate::specs::Lines::cell))]
fn cell(
    alloc: Global,
    left: &mut Left<'_>,
    schema: &Schema,
    name: &Name,
) -> Result<Value, RecordFault>
    ensures { Reads (cell schema.now.columns name.now) left.old result left.new }
{
    let Some(column) = column_at(schema.columns(), name) else {
        return Err(RecordFault::NotRecord);
    };
    left.value(alloc, column.kind)
}

fn column_at<'a>(columns: &'a [Column], name: &Name) -> Option<&'a Column>
    requires { IsTrue (list_all is_column columns.now) }
    ensures value { option_copied result ≡ column_at columns.now name.now }
    ensures column { IfSome result (λ column. IsTrue (is_column column.now)) }
{
    columns.iter().find(|column| column.name == *name)
}

/// A value of the column of a name, behind a mark.
#[tactic(auto, unfolding(crate::specs::Lines::marked_cell))]
fn marked_cell(
    alloc: Global,
    left: &mut Left<'_>,
    schema: &Schema,
    mark: &[u8],
    name: &Name,
) -> Result<Value, RecordFault>
    ensures { Reads (marked_cell schema.now.columns mark.now name.now) left.old result left.new }
{
    left.expect(mark)?;
    cell(alloc, left, schema, name)
}

/// The values of columns in turn, the first behind its words and the others behind commas.
#[tactic(auto, using(crate::proofs::Loops::each_begins))]
fn cells(
    alloc: Global,
    left: &mut Left<'_>,
    schema: &Schema,
    names: &[Name],
) -> Result<Row, RecordFault>
    ensures { Reads (cells schema.now.columns (codes " VALUES (") names.now) left.old result left.new }
{
    let mut values = Vec::new(alloc);
    let mut mark: &[u8] = b" VALUES (";
    for name in names {
        values.push(marked_cell(alloc, left, schema, mark, name)?)?;
        mark = b",";
    }
    Ok(Row::new(values))
}

/// A new row: the names of its columns, and its values.
#[tactic(auto, unfolding(crate::specs::Lines::row))]
fn row(alloc: Global, left: &mut Left<'_>, schema: &Schema) -> Result<(Names, Row), RecordFault>
    ensures { Reads (row schema.now.columns) left.old result left.new }
{
    left.expect(b" ")?;
    let names = names(alloc, left)?;
    let values = cells(alloc, left, schema, names.as_slice())?;
    left.expect(b");\n")?;
    Ok((names, values))
}

/// A column's name and its new value.
#[tactic(auto, unfolding(crate::specs::Lines::assignment))]
fn assignment(
    alloc: Global,
    left: &mut Left<'_>,
    schema: &Schema,
) -> Result<(Name, Value), RecordFault>
    ensures { Reads (assignment schema.now.columns) left.old result left.new }
{
    let name = left.name(alloc)?;
    left.expect(b"=")?;
    let value = cell(alloc, left, schema, &name)?;
    Ok((name, value))
}

/// A name and its value behind a comma, if there is one more.
#[tactic(auto, unfolding(crate::specs::Lines::next_assignment))]
fn next_assignment(
    alloc: Global,
    left: &mut Left<'_>,
    schema: &Schema,
) -> Result<Option<(Name, Value)>, RecordFault>
    ensures { Reads (next_assignment schema.now.columns) left.old result left.new }
{
    if left.accept(b",") {
        Ok(Some(assignment(alloc, left, schema)?))
    } else {
        Ok(None)
    }
}

/// The names and values that follow others. Each takes a byte at least.
#[tactic(auto, using(crate::proofs::Loops::pairs_begin))]
fn further_assignments(
    alloc: Global,
    left: &mut Left<'_>,
    schema: &Schema,
    mut names: Vec<Name>,
    mut values: Vec<Value>,
) -> Result<(Names, Row), RecordFault>
    ensures { Reads (further_pairs (next_assignment schema.now.columns) names.items values.items) left.old result left.new }
{
    for _ in 0..left.len() {
        match next_assignment(alloc, left, schema)? {
            Some((name, value)) => {
                names.push(name)?;
                values.push(value)?;
            }
            None => break,
        }
    }
    Ok((Names::new(names), Row::new(values)))
}

/// Names and their values, parted by commas.
#[tactic(auto, unfolding(crate::specs::Lines::assignments))]
fn assignments(
    alloc: Global,
    left: &mut Left<'_>,
    schema: &Schema,
) -> Result<(Names, Row), RecordFault>
    ensures { Reads (assignments schema.now.columns) left.old result left.new }
{
    let (name, value) = assignment(alloc, left, schema)?;
    let mut names = Vec::new(alloc);
    names.push(name)?;
    let mut values = Vec::new(alloc);
    values.push(value)?;
    further_assignments(alloc, left, schema, names, values)
}

/// A value of a column that is named before it, behind a mark.
#[tactic(auto, unfolding(crate::specs::Lines::condition))]
fn condition(
    alloc: Global,
    left: &mut Left<'_>,
    schema: &Schema,
    mark: &[u8],
    column: &Name,
) -> Result<Value, RecordFault>
    ensures { Reads (condition schema.now.columns mark.now column.now) left.old result left.new }
{
    left.expect(mark)?;
    left.name(alloc)?;
    left.expect(b"=")?;
    cell(alloc, left, schema, column)
}

/// The values of named columns in turn, the first behind WHERE and the others behind AND.
#[tactic(auto, using(crate::proofs::Loops::each_begins))]
fn conditions(
    alloc: Global,
    left: &mut Left<'_>,
    schema: &Schema,
    names: &[Name],
) -> Result<Row, RecordFault>
    ensures { Reads (conditions schema.now.columns (codes " WHERE ") names.now) left.old result left.new }
{
    let mut values = Vec::new(alloc);
    let mut mark: &[u8] = b" WHERE ";
    for name in names {
        values.push(condition(alloc, left, schema, mark, name)?)?;
        mark = b" AND ";
    }
    Ok(Row::new(values))
}

/// The key of a row.
#[tactic(auto, unfolding(crate::specs::Lines::key))]
fn key(alloc: Global, left: &mut Left<'_>, schema: &Schema) -> Result<Row, RecordFault>
    ensures { Reads (key schema.now) left.old result left.new }
{
    conditions(alloc, left, schema, schema.primary().as_slice())
}

#[tactic(auto, unfolding(crate::specs::Lines::update))]
fn update(alloc: Global, left: &mut Left<'_>, schema: &Schema) -> Result<RowOp, RecordFault>
    ensures { Reads (update schema.now) left.old result left.new }
{
    left.expect(b" SET ")?;
    let (columns, row) = assignments(alloc, left, schema)?;
    let key = key(alloc, left, schema)?;
    left.expect(b" LIMIT 1;\n")?;
    Ok(RowOp::Update { columns, key, row })
}

#[tactic(auto, unfolding(crate::specs::Lines::delete))]
fn delete(alloc: Global, left: &mut Left<'_>, schema: &Schema) -> Result<RowOp, RecordFault>
    ensures { Reads (delete schema.now) left.old result left.new }
{
    let key = key(alloc, left, schema)?;
    if left.accept(b" LIMIT 1;\n") {
        return Ok(RowOp::Delete { key });
    }
    left.expect(b";\n")?;
    Ok(RowOp::Erase { key })
}

/// What a line does, behind its table.
#[tactic(auto, unfolding(crate::specs::Lines::op_by))]
fn op_by(
    alloc: Global,
    left: &mut Left<'_>,
    schema: &Schema,
    verb: Verb,
) -> Result<RowOp, RecordFault>
    ensures { Reads (op_by schema.now verb) left.old result left.new }
{
    match verb {
        Verb::Insert => {
            let (columns, row) = row(alloc, left, schema)?;
            Ok(RowOp::Insert { columns, row })
        }
        Verb::Replace => {
            let (columns, row) = row(alloc, left, schema)?;
            Ok(RowOp::Replace { columns, row })
        }
        Verb::Update => update(alloc, left, schema),
        Verb::Delete => delete(alloc, left, schema),
    }
}

/// An operation on rows of a table of the schema.
#[tactic(auto, unfolding(crate::specs::Lines::op))]
fn op(alloc: Global, left: &mut Left<'_>, schema: &Schema) -> Result<RowOp, RecordFault>
    ensures { Reads (op schema.now) left.old result left.new }
{
    let (verb, _) = head(alloc, left)?;
    op_by(alloc, left, schema, verb)
}

/// One more operation, up to the end of the transaction.
#[tactic(auto, unfolding(crate::specs::Lines::next_op))]
fn next_op(
    alloc: Global,
    left: &mut Left<'_>,
    schema: &Schema,
) -> Result<Option<RowOp>, RecordFault>
    ensures { Reads (next_op schema.now) left.old result left.new }
{
    if left.accept(b"COMMIT;\n") {
        Ok(None)
    } else {
        Ok(Some(op(alloc, left, schema)?))
    }
}

/// All operations of a transaction. Each takes a byte at least.
#[tactic(auto, using(crate::proofs::Loops::begins))]
pub fn ops(
    alloc: Global,
    left: &mut Left<'_>,
    schema: &Schema,
) -> Result<Sequence<RowOp>, RecordFault>
    ensures { Reads (further (next_op schema.now) []) left.old result left.new }
{
    let mut ops = Vec::new(alloc);
    for _ in 0..left.len() {
        match next_op(alloc, left, schema)? {
            Some(op) => ops.push(op)?,
            None => break,
        }
    }
    Ok(Sequence::new(ops))
}

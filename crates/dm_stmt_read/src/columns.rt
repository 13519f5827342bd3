ghost use Rattle.std.specs.Prelude.{◌≡◌, [], IsTrue};
ghost use Rattle.std.specs.List.{list_all};
ghost use Rattle.dm_schema.specs.Kinds.{is_kind, is_column, is_key, is_rule};
ghost use Rattle.dm_stmt_read.specs.Readers.{Reads, further};
ghost use Rattle.dm_stmt_read.specs.Columns.{nullable, written_default, default_rule, column, unique_key, column_item, next_column, next_unique, layout_of, layout};

use crate::RecordFault;
use crate::kinds::{fraction, is_kind, read_kind};
use crate::left::Left;
use crate::names::names;
use dm_list::Sequence;
use dm_schema::{Column, DefaultRule, Kind, Schema, UniqueKey, is_folded};
use dm_value::{Names, Value};
use std::alloc::Global;

#[tactic(auto, unfolding(crate::specs::Columns::nullable))]
fn nullable(left: &mut Left<'_>) -> Result<bool, RecordFault>
    ensures { Reads nullable left.old result left.new }
{
    if left.accept(b" NOT NULL") {
        return Ok(false);
    }
    left.expect(b" NULL")?;
    Ok(true)
}

/// A default behind its word.
#[tactic(auto, unfolding(crate::specs::Columns::written_default))]
fn written_default(
    alloc: Global,
    left: &mut Left<'_>,
    kind: Kind,
) -> Result<DefaultRule, RecordFault>
    requires { IsTrue (is_kind kind) }
    ensures { Reads (written_default kind) left.old result left.new }
{
    if left.accept(b"CURRENT_TIMESTAMP") {
        fraction(alloc, left)?;
        Ok(DefaultRule::Now)
    } else {
        Ok(DefaultRule::Const(left.value(alloc, kind)?))
    }
}

#[tactic(auto, unfolding(crate::specs::Columns::default_rule))]
fn default_rule(alloc: Global, left: &mut Left<'_>, kind: Kind) -> Result<DefaultRule, RecordFault>
    requires { IsTrue (is_kind kind) }
    ensures { Reads (default_rule kind) left.old result left.new }
{
    if left.accept(b" DEFAULT ") {
        written_default(alloc, left, kind)
    } else {
        Ok(DefaultRule::Nothing)
    }
}

/// A column, with its name, its kind and what it says besides.
#[tactic(auto, unfolding(crate::specs::Columns::column))]
pub fn column(alloc: Global, left: &mut Left<'_>) -> Result<Column, RecordFault>
    ensures { Reads column left.old result left.new }
{
    let name = left.name(alloc)?;
    left.expect(b" ")?;
    let kind = read_kind(alloc, left)?;
    let nullable = nullable(left)?;
    let default_rule = default_rule(alloc, left, kind)?;
    Ok(Column {
        name,
        kind,
        nullable,
        default_rule,
    })
}

/// The name of a unique key, and its columns.
#[tactic(auto, unfolding(crate::specs::Columns::unique_key))]
pub fn unique_key(alloc: Global, left: &mut Left<'_>) -> Result<UniqueKey, RecordFault>
    ensures { Reads unique_key left.old result left.new }
{
    let name = left.name(alloc)?;
    left.expect(b" ")?;
    let columns = names(alloc, left)?;
    Ok(UniqueKey { name, columns })
}

/// A column of a table, and what parts it from what follows.
#[tactic(auto, unfolding(crate::specs::Columns::column_item))]
fn column_item(alloc: Global, left: &mut Left<'_>) -> Result<Column, RecordFault>
    ensures { Reads column_item left.old result left.new }
{
    let column = column(alloc, left)?;
    left.expect(b", ")?;
    Ok(column)
}

/// One more column, up to the primary key.
#[tactic(auto, unfolding(crate::specs::Columns::next_column))]
fn next_column(alloc: Global, left: &mut Left<'_>) -> Result<Option<Column>, RecordFault>
    ensures { Reads next_column left.old result left.new }
{
    if left.accept(b"PRIMARY KEY ") {
        Ok(None)
    } else {
        Ok(Some(column_item(alloc, left)?))
    }
}

/// All columns of a table, and the words of the primary key. Each takes a byte at least.
#[tactic(auto, using(crate::proofs::Loops::begins))]
fn columns(alloc: Global, left: &mut Left<'_>) -> Result<Sequence<Column>, RecordFault>
    ensures { Reads (further next_column []) left.old result left.new }
{
    let mut columns = Vec::new(alloc);
    for _ in 0..left.len() {
        match next_column(alloc, left)? {
            Some(column) => columns.push(column)?,
            None => break,
        }
    }
    Ok(Sequence::new(columns))
}

/// One more unique key, if there is one.
#[tactic(auto, unfolding(crate::specs::Columns::next_unique))]
fn next_unique(alloc: Global, left: &mut Left<'_>) -> Result<Option<UniqueKey>, RecordFault>
    ensures { Reads next_unique left.old result left.new }
{
    if left.accept(b", UNIQUE KEY ") {
        Ok(Some(unique_key(alloc, left)?))
    } else {
        Ok(None)
    }
}

/// All unique keys of a table. Each takes a byte at least.
#[tactic(auto, using(crate::proofs::Loops::begins))]
fn uniques(alloc: Global, left: &mut Left<'_>) -> Result<Sequence<UniqueKey>, RecordFault>
    ensures { Reads (further next_unique []) left.old result left.new }
{
    let mut uniques = Vec::new(alloc);
    for _ in 0..left.len() {
        match next_unique(alloc, left)? {
            Some(key) => uniques.push(key)?,
            None => break,
        }
    }
    Ok(Sequence::new(uniques))
}

/// Whether a schema can be made of the column.
fn is_column(column: &Column) -> bool
    ensures { result ≡ is_column column.now }
{
    is_folded(column.name.as_slice()) && is_kind(column.kind) && is_rule(&column.default_rule)
}

fn is_rule(rule: &DefaultRule) -> bool
    ensures { result ≡ is_rule rule.now }
{
    !matches!(rule, DefaultRule::Const(Value::Null))
}

fn is_key(key: &UniqueKey) -> bool
    ensures { result ≡ is_key key.now }
{
    is_folded(key.name.as_slice()) && !key.columns.is_empty()
}

fn are_columns(columns: &[Column]) -> bool
    ensures { result ≡ list_all is_column columns.now }
{
    columns.iter().all(|column| is_column(column))
}

fn are_keys(keys: &[UniqueKey]) -> bool
    ensures { result ≡ list_all is_key keys.now }
{
    keys.iter().all(|key| is_key(key))
}

/// The schema of columns and keys, if they are one.
#[tactic(auto, unfolding(crate::specs::Columns::layout_of))]
fn schema_of(
    columns: Sequence<Column>,
    primary: Names,
    uniques: Sequence<UniqueKey>,
) -> Option<Schema>
    ensures { result ≡ layout_of columns primary uniques }
{
    if are_columns(columns.as_slice()) && are_keys(uniques.as_slice()) {
        Schema::joined(columns.into_vec(), primary, uniques.into_vec()).ok()
    } else {
        None
    }
}

/// Columns, the primary key and unique keys.
#[tactic(auto, unfolding(crate::specs::Columns::layout))]
pub fn layout(alloc: Global, left: &mut Left<'_>) -> Result<Schema, RecordFault>
    ensures { Reads layout left.old result left.new }
{
    let columns = columns(alloc, left)?;
    let primary = names(alloc, left)?;
    let uniques = uniques(alloc, left)?;
    schema_of(columns, primary, uniques).ok_or(RecordFault::NotRecord)
}

ghost use Rattle.std.specs.Prelude.{◌≡◌, ◌++◌, IfOk};
ghost use Rattle.dm_gen.specs.Schemas.{columns_after, d_column, id_column, integer_column, schema_after, statement, u_column, u_key, uniques_after, v_column, w_key};

use dm_schema::{Column, DefaultRule, Kind, Names, Schema, UniqueKey, Value};
use dm_value::Name;
use std::alloc::{AllocError, Global};

fn name(alloc: Global, text: &[u8]) -> Result<Name, AllocError>
    ensures { IfOk result (λ name. name ≡ text.now) }
{
    Ok(Name::new(text.to_vec(alloc)?))
}

/// An integer column of so many bytes.
fn integer_column(
    alloc: Global,
    text: &[u8],
    size: u8,
    nullable: bool,
    default_rule: DefaultRule,
) -> Result<Column, AllocError>
    ensures { IfOk result (λ column. column ≡ integer_column text.now size nullable default_rule) }
{
    Ok(Column {
        name: name(alloc, text)?,
        kind: Kind::Signed(size),
        nullable,
        default_rule,
    })
}

fn id_column(alloc: Global) -> Result<Column, AllocError>
    ensures { IfOk result (λ column. column ≡ id_column) }
{
    integer_column(alloc, b"id", 8, false, DefaultRule::Nothing)
}

fn u_column(alloc: Global) -> Result<Column, AllocError>
    ensures { IfOk result (λ column. column ≡ u_column) }
{
    integer_column(alloc, b"u", 8, true, DefaultRule::Nothing)
}

fn v_column(alloc: Global, done: u32) -> Result<Column, AllocError>
    ensures { IfOk result (λ column. column ≡ v_column done) }
{
    let size = if done < 2 { 4 } else { 8 };
    integer_column(alloc, b"v", size, false, DefaultRule::Nothing)
}

fn d_column(alloc: Global) -> Result<Column, AllocError>
    ensures { IfOk result (λ column. column ≡ d_column) }
{
    integer_column(alloc, b"d", 4, false, DefaultRule::Const(Value::Int(5)))
}

fn columns_after(alloc: Global, done: u32) -> Result<Vec<Column>, AllocError>
    ensures { IfOk result (λ columns. columns.items ≡ columns_after done) }
{
    let mut columns = Vec::with_capacity(alloc, 4)?;
    columns.push(id_column(alloc)?)?;
    columns.push(u_column(alloc)?)?;
    columns.push(v_column(alloc, done)?)?;
    if done >= 1 {
        columns.push(d_column(alloc)?)?;
    }
    Ok(columns)
}

fn u_key(alloc: Global) -> Result<UniqueKey, AllocError>
    ensures { IfOk result (λ key. key ≡ u_key) }
{
    let mut columns = Vec::with_capacity(alloc, 1)?;
    columns.push(name(alloc, b"u")?)?;
    Ok(UniqueKey {
        name: name(alloc, b"u")?,
        columns: Names::new(columns),
    })
}

fn w_key(alloc: Global) -> Result<UniqueKey, AllocError>
    ensures { IfOk result (λ key. key ≡ w_key) }
{
    let mut columns = Vec::with_capacity(alloc, 2)?;
    columns.push(name(alloc, b"u")?)?;
    columns.push(name(alloc, b"v")?)?;
    Ok(UniqueKey {
        name: name(alloc, b"w")?,
        columns: Names::new(columns),
    })
}

fn uniques_after(alloc: Global, done: u32) -> Result<Vec<UniqueKey>, AllocError>
    ensures { IfOk result (λ uniques. uniques.items ≡ uniques_after done) }
{
    let mut uniques = Vec::with_capacity(alloc, 2)?;
    uniques.push(u_key(alloc)?)?;
    if done >= 3 {
        uniques.push(w_key(alloc)?)?;
    }
    Ok(uniques)
}

fn primary(alloc: Global) -> Result<Names, AllocError>
    ensures { IfOk result (λ names. names ≡ (schema_after 0).primary) }
{
    let mut names = Vec::with_capacity(alloc, 1)?;
    names.push(name(alloc, b"id")?)?;
    Ok(Names::new(names))
}

/// The schema of each source's table, when so many of the statements are done.
pub fn schema_after(alloc: Global, done: u32) -> Result<Schema, AllocError>
    ensures { IfOk result (λ schema. schema ≡ schema_after done) }
{
    let columns = columns_after(alloc, done)?;
    let primary = primary(alloc)?;
    let uniques = uniques_after(alloc, done)?;
    match Schema::new(columns, primary, uniques) {
        Ok(schema) => Ok(schema),
        Err(_) => unreachable!(),
    }
}

/// The three texts of a statement of which a table's name stands between the first two.
fn joined(alloc: Global, front: &[u8], table: &[u8], behind: &[u8]) -> Result<Vec<u8>, AllocError>
    ensures { IfOk result (λ text. text.items ≡ (front.now ++ table.now) ++ behind.now) }
{
    let mut text = front.to_vec(alloc)?;
    text.extend_from_slice(table)?;
    text.extend_from_slice(behind)?;
    Ok(text)
}

/// The statement that comes when so many are done.
pub fn statement(alloc: Global, done: u32, table: &[u8]) -> Result<Vec<u8>, AllocError>
    ensures { IfOk result (λ text. text.items ≡ statement done table.now) }
{
    if done == 0 {
        joined(
            alloc,
            b"ALTER TABLE `",
            table,
            b"` ADD COLUMN `d` INT NOT NULL DEFAULT 5",
        )
    } else if done == 1 {
        joined(
            alloc,
            b"ALTER TABLE `",
            table,
            b"` MODIFY COLUMN `v` BIGINT NOT NULL",
        )
    } else {
        joined(
            alloc,
            b"CREATE UNIQUE INDEX `w` ON `",
            table,
            b"` (`u`,`v`)",
        )
    }
}

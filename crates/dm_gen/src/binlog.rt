ghost use Rattle.std.specs.Prelude.{◌≡◌, ◌≤◌, ◌<◌, ◌+◌, ◌^◌, ◌++◌, length, map, IsTrue, IfOk, OnOk};
ghost use Rattle.std.specs.List.{list_all, range_with_len};
ghost use Rattle.std.specs.Cmp.Lexicographic.{pointwise};
ghost use Rattle.dm_schema.specs.Fits.{fits};
ghost use Rattle.dm_binlog.specs.Framing.{magic};
ghost use Rattle.dm_encode.specs.Kinds.{has_map};
ghost use Rattle.dm_encode.specs.Events.{format_event, map_event, query_event, rows_event, rows_of};
ghost use Rattle.dm_gen.specs.Naming.{own_name};
ghost use Rattle.dm_gen.specs.Schemas.{schema_after, statement};
ghost use Rattle.dm_gen.specs.Steps.{step};
ghost use Rattle.dm_gen.specs.Logs.{binlog, is_last, logged, statement_behind};

use crate::naming::own_name;
use crate::schemas::{schema_after, statement};
use crate::walker::{Walker, done_before};
use dm_encode::{write_format, write_map, write_query, write_rows};
use dm_schema::{RowChange, Schema, TableName};
use std::alloc::{AllocError, Global};

/// What a binlog begins with.
const MAGIC: [u8; 4] = [0xfe, b'b', b'i', b'n'];
/// Steps of a source.
const STEPS: u32 = 4000;

/// The file before the first step.
fn begun(alloc: Global) -> Result<Vec<u8>, AllocError>
    ensures { IfOk result (λ bytes. bytes.items ≡ magic ++ format_event) }
{
    let mut bytes = MAGIC.to_vec(alloc)?;
    let format = write_format(alloc)?;
    bytes.extend_from_slice(&format)?;
    Ok(bytes)
}

/// Adds the table map of a source's table.
fn push_map(
    alloc: Global,
    bytes: &mut Vec<u8>,
    source: u8,
    own: &TableName,
    schema: &Schema,
) -> Result<(), AllocError>
    requires names { (length own.now.db ≤ 255) × (length own.now.table ≤ 255) }
    requires columns { length schema.now.columns ≤ 4 }
    requires kinds { IsTrue (list_all (λ c. has_map c.kind) schema.now.columns) }
    ensures { OnOk result (bytes.new.items ≡ bytes.old.items ++ map_event (source + 1) own.now.db own.now.table schema.now) }
{
    let event = write_map(alloc, u64::from(source) + 1, &own.db, &own.table, schema)?;
    bytes.extend_from_slice(&event)?;
    Ok(())
}

/// Adds the rows event of a change.
fn push_rows(
    alloc: Global,
    bytes: &mut Vec<u8>,
    source: u8,
    schema: &Schema,
    change: &RowChange,
) -> Result<(), AllocError>
    requires kinds { IsTrue (list_all (λ c. has_map c.kind) schema.now.columns) }
    requires fits { IsTrue (list_all (λ row. pointwise fits row schema.now.columns) (rows_of change.now)) }
    requires size { length (rows_event (source + 1) schema.now change.now) < 2 ^ 32 }
    ensures { OnOk result (bytes.new.items ≡ bytes.old.items ++ rows_event (source + 1) schema.now change.now) }
{
    let event = write_rows(alloc, u64::from(source) + 1, schema, change)?;
    bytes.extend_from_slice(&event)?;
    Ok(())
}

/// Adds the statement that comes when so many are done.
fn push_statement(
    alloc: Global,
    bytes: &mut Vec<u8>,
    own: &TableName,
    done: u32,
) -> Result<(), AllocError>
    requires names { (length own.now.db ≤ 255) × (length own.now.table ≤ 255) }
    ensures { OnOk result (bytes.new.items ≡ bytes.old.items ++ query_event own.now.db (statement done own.now.table)) }
{
    let text = statement(alloc, done, own.table.as_slice())?;
    let event = write_query(alloc, &own.db, &text)?;
    bytes.extend_from_slice(&event)?;
    Ok(())
}

/// Whether a statement comes behind a step.
fn is_last(number: u32) -> bool
    ensures { result ≡ is_last number }
{
    number % 1000 == 999 && number < 3000
}

/// Adds the statement that comes behind a step, if one does.
fn push_statement_behind(
    alloc: Global,
    bytes: &mut Vec<u8>,
    source: u8,
    own: &TableName,
    number: u32,
) -> Result<(), AllocError>
    requires source { source < 4 }
    requires own { own.now ≡ own_name source }
    ensures { OnOk result (bytes.new.items ≡ bytes.old.items ++ statement_behind source number) }
{
    if is_last(number) {
        push_statement(alloc, bytes, own, done_before(number))
    } else {
        Ok(())
    }
}

/// The schemas by how many statements are done.
fn schemas(alloc: Global) -> Result<Vec<Schema>, AllocError>
    ensures { IfOk result (λ schemas. schemas.items ≡ map schema_after (range_with_len 0 4)) }
{
    let mut schemas = Vec::with_capacity(alloc, 4)?;
    for done in 0..4 {
        schemas.push(schema_after(alloc, done)?)?;
    }
    Ok(schemas)
}

/// Adds what a step writes.
fn push_step(
    alloc: Global,
    bytes: &mut Vec<u8>,
    walker: &mut Walker,
    source: u8,
    own: &TableName,
    schemas: &[Schema],
    number: u32,
) -> Result<(), AllocError>
    requires source { source < 4 }
    requires number { number < 4000 }
    requires own { own.now ≡ own_name source }
    requires schemas { schemas.now ≡ map schema_after (range_with_len 0 4) }
    requires next { walker.old.next < 2 ^ 31 }
    requires live { 0 < length walker.old.live }
    ensures walk { OnOk result (walker.new ≡ (step number walker.old).walk) }
    ensures bytes { OnOk result (bytes.new.items ≡ bytes.old.items ++ logged source number walker.old) }
{
    let done = done_before(number);
    let schema = &schemas[done as usize];
    let change = walker.step(alloc, number)?;
    push_map(alloc, bytes, source, own, schema)?;
    push_rows(alloc, bytes, source, schema, &change)?;
    push_statement_behind(alloc, bytes, source, own, number)?;
    Ok(())
}

/// The binlog of a source.
pub fn binlog(alloc: Global, number: u32, source: u8) -> Result<Vec<u8>, AllocError>
    requires { source < 4 }
    ensures { IfOk result (λ bytes. bytes.items ≡ binlog number source) }
{
    let own = own_name(alloc, source)?;
    let schemas = schemas(alloc)?;
    let mut walker = Walker::new(alloc, number, source)?;
    let mut bytes = begun(alloc)?;
    for step in 0..STEPS {
        push_step(alloc, &mut bytes, &mut walker, source, &own, &schemas, step)?;
    }
    Ok(bytes)
}

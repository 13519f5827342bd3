ghost use Rattle.std.specs.Prelude.{◌≡◌, ◌<◌, ◌≤◌, length, drop, IsTrue, IfOk};
ghost use Rattle.std.specs.List.{list_all};
ghost use Rattle.std.specs.Cmp.Lexicographic.{pointwise};
ghost use Rattle.dm_schema.specs.Fits.{fits};
ghost use Rattle.dm_gen.specs.Schemas.{columns_after};
ghost use Rattle.dm_gen.specs.Dumps.{create_file, dumped, rows_file};

use crate::live_row::row_of;
use crate::naming::table_of;
use crate::schemas::schema_after;
use crate::walker::dumped_rows;
use dm_value::Rows;
use dm_write::write_dump;
use std::alloc::{AllocError, Global};

/// The rows of a source's dump, as values.
fn dumped(alloc: Global, source: u8) -> Result<Rows, AllocError>
    requires { source < 4 }
    ensures value { IfOk result (λ rows. rows ≡ dumped source 1000) }
    ensures fits { IfOk result (λ rows. IsTrue (list_all (λ row. pointwise fits row (columns_after 0)) rows)) }
{
    let live = dumped_rows(alloc, source)?;
    let mut rows = Vec::with_capacity(alloc, live.len())?;
    for row in &live {
        rows.push(row_of(alloc, *row, 0)?)?;
    }
    Ok(Rows::new(rows))
}

/// The file of a source's CREATE TABLE.
pub fn create_file(alloc: Global, source: u8) -> Result<Vec<u8>, AllocError>
    requires { source < 4 }
    ensures { IfOk result (λ text. text.items ≡ create_file source) }
{
    let table = table_of(alloc, source)?;
    let schema = schema_after(alloc, 0)?;
    let rows = Rows::new(Vec::new(alloc));
    write_dump(alloc, &table, &schema, &rows)
}

/// What a text has behind a front of the length of another.
fn behind(alloc: Global, text: &[u8], front: &[u8]) -> Result<Vec<u8>, AllocError>
    requires { length front.now ≤ length text.now }
    ensures { IfOk result (λ rest. rest.items ≡ drop (length front.now) text.now) }
{
    text[front.len()..].to_vec(alloc)
}

/// The file of its rows: what a dump with them has behind the CREATE TABLE.
pub fn rows_file(alloc: Global, source: u8) -> Result<Vec<u8>, AllocError>
    requires { source < 4 }
    ensures { IfOk result (λ text. text.items ≡ rows_file source) }
{
    let table = table_of(alloc, source)?;
    let schema = schema_after(alloc, 0)?;
    let rows = dumped(alloc, source)?;
    let dump = write_dump(alloc, &table, &schema, &rows)?;
    let create = create_file(alloc, source)?;
    let text = behind(alloc, &dump, &create)?;
    Ok(text)
}

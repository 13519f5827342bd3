ghost use Rattle.std.specs.Prelude.{◌≡◌, ◌<◌, IfOk};
ghost use Rattle.dm_gen.specs.Naming.{binlog_name, create_name, database, file_name, numbered, own_name, rows_name, source_name, table_of, target_name};

use dm_list::Bytes;
use dm_schema::TableName;
use dm_value::Name;
use std::alloc::{AllocError, Global};

/// A word with the digit of a source behind it.
fn numbered(alloc: Global, word: &[u8], source: u8) -> Result<Vec<u8>, AllocError>
    requires { source < 4 }
    ensures { IfOk result (λ text. text.items ≡ numbered word.now source) }
{
    let mut text = word.to_vec(alloc)?;
    text.push(b'0' + source)?;
    Ok(text)
}

pub fn source_name(alloc: Global, source: u8) -> Result<Bytes, AllocError>
    requires { source < 4 }
    ensures { IfOk result (λ name. name ≡ source_name source) }
{
    Ok(Bytes::new(numbered(alloc, b"g", source)?))
}

pub fn database(alloc: Global) -> Result<Name, AllocError>
    ensures { IfOk result (λ name. name ≡ database) }
{
    Ok(Name::new(b"g".to_vec(alloc)?))
}

pub fn table_of(alloc: Global, source: u8) -> Result<Name, AllocError>
    requires { source < 4 }
    ensures { IfOk result (λ name. name ≡ table_of source) }
{
    Ok(Name::new(numbered(alloc, b"t", source)?))
}

/// The table of a source.
pub fn own_name(alloc: Global, source: u8) -> Result<TableName, AllocError>
    requires { source < 4 }
    ensures { IfOk result (λ name. name ≡ own_name source) }
{
    Ok(TableName {
        db: database(alloc)?,
        table: table_of(alloc, source)?,
    })
}

/// The table that all of them go to.
pub fn target_name(alloc: Global) -> Result<TableName, AllocError>
    ensures { IfOk result (λ name. name ≡ target_name) }
{
    Ok(TableName {
        db: database(alloc)?,
        table: Name::new(b"t".to_vec(alloc)?),
    })
}

fn file_name(alloc: Global, source: u8, ending: &[u8]) -> Result<Bytes, AllocError>
    requires { source < 4 }
    ensures { IfOk result (λ name. name ≡ file_name source ending.now) }
{
    let mut name = numbered(alloc, b"g", source)?;
    name.extend_from_slice(ending)?;
    Ok(Bytes::new(name))
}

/// The file of the CREATE TABLE.
pub fn create_name(alloc: Global, source: u8) -> Result<Bytes, AllocError>
    requires { source < 4 }
    ensures { IfOk result (λ name. name ≡ create_name source) }
{
    file_name(alloc, source, b".sql")
}

/// The file of the dump's rows.
pub fn rows_name(alloc: Global, source: u8) -> Result<Bytes, AllocError>
    requires { source < 4 }
    ensures { IfOk result (λ name. name ≡ rows_name source) }
{
    file_name(alloc, source, b".rows.sql")
}

pub fn binlog_name(alloc: Global, source: u8) -> Result<Bytes, AllocError>
    requires { source < 4 }
    ensures { IfOk result (λ name. name ≡ binlog_name source) }
{
    file_name(alloc, source, b".bin")
}

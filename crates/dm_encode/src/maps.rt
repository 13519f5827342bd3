ghost use Rattle.std.specs.Prelude.{◌≡◌, ◌≤◌, ◌<◌, ◌^◌, ◌++◌, length, drop, map, Some, IsTrue, IfOk, OnOk};
ghost use Rattle.std.specs.List.{list_all};
ghost use Rattle.dm_schema.specs.Kinds.{is_column};
ghost use Rattle.dm_binlog.specs.Bodies.{table_map_of};
ghost use Rattle.dm_encode.specs.Kinds.{has_map, is_mapped};
ghost use Rattle.dm_encode.specs.Events.{codes_of, columns_body, counted, map_body, map_event, maps_of, metadata_of};
ghost use Rattle.dm_encode.specs.ReadBack.{IsWholeEvent};

use crate::bitmaps::push_bitmap;
use crate::events::event;
use crate::kinds::{column_map, push_metadata};
use crate::numbers::{push_le, push_lenenc};
use dm_binlog::TABLE_MAP;
use dm_schema::{Column, Schema};
use dm_value::Name;
use std::alloc::{AllocError, Global};

/// Adds a name behind its length, with a 0 byte behind it.
fn push_counted(bytes: &mut Vec<u8>, name: &[u8]) -> Result<(), AllocError>
    ensures { OnOk result (bytes.new.items ≡ bytes.old.items ++ counted name.now) }
{
    push_le(bytes, 1, name.len() as u64)?;
    bytes.extend_from_slice(name)?;
    bytes.push(0)?;
    Ok(())
}

fn push_codes(bytes: &mut Vec<u8>, columns: &[Column]) -> Result<(), AllocError>
    requires columns { IsTrue (list_all is_column columns.now) }
    requires maps { IsTrue (list_all (λ c. has_map c.kind) columns.now) }
    ensures { OnOk result (bytes.new.items ≡ bytes.old.items ++ codes_of columns.now) }
{
    let [column, columns @ ..] = columns else {
        return Ok(());
    };
    bytes.push(column_map(column.kind).code)?;
    push_codes(bytes, columns)
}

fn push_all_metadata(bytes: &mut Vec<u8>, columns: &[Column]) -> Result<(), AllocError>
    requires columns { IsTrue (list_all is_column columns.now) }
    requires maps { IsTrue (list_all (λ c. has_map c.kind) columns.now) }
    ensures value { OnOk result (bytes.new.items ≡ bytes.old.items ++ metadata_of columns.now) }
    ensures mapped { OnOk result (IsTrue (list_all (λ c. is_mapped c.kind) columns.now)) }
{
    let [column, columns @ ..] = columns else {
        return Ok(());
    };
    push_metadata(bytes, column.kind)?;
    push_all_metadata(bytes, columns)
}

fn nullable_of(alloc: Global, columns: &[Column]) -> Result<Vec<bool>, AllocError>
    ensures { IfOk result (λ bits. bits.items ≡ map (λ c. c.nullable) columns.now) }
{
    columns.iter().map(|column| column.nullable).collect(alloc)
}

/// Adds a column count, codes, metadata and the bits of nullable columns.
fn push_columns(alloc: Global, bytes: &mut Vec<u8>, schema: &Schema) -> Result<(), AllocError>
    requires { IsTrue (list_all (λ c. has_map c.kind) schema.now.columns) }
    ensures value { OnOk result (bytes.new.items ≡ bytes.old.items ++ columns_body schema.now.columns) }
    ensures mapped { OnOk result (IsTrue (list_all (λ c. is_mapped c.kind) schema.now.columns)) }
{
    let columns = schema.columns();
    push_lenenc(bytes, columns.len() as u64)?;
    push_codes(bytes, columns)?;
    let mut metadata = Vec::new(alloc);
    push_all_metadata(&mut metadata, columns)?;
    push_lenenc(bytes, metadata.len() as u64)?;
    bytes.extend_from_slice(&metadata)?;
    let nullable = nullable_of(alloc, columns)?;
    push_bitmap(bytes, &nullable)
}

pub fn map_body(
    alloc: Global,
    id: u64,
    db: &[u8],
    table: &[u8],
    schema: &Schema,
) -> Result<Vec<u8>, AllocError>
    requires { IsTrue (list_all (λ c. has_map c.kind) schema.now.columns) }
    ensures value { IfOk result (λ bytes. bytes.items ≡ map_body id db.now table.now schema.now) }
    ensures mapped { OnOk result (IsTrue (list_all (λ c. is_mapped c.kind) schema.now.columns)) }
{
    let mut bytes = Vec::new(alloc);
    push_le(&mut bytes, 6, id)?;
    push_le(&mut bytes, 2, 1)?;
    push_counted(&mut bytes, db)?;
    push_counted(&mut bytes, table)?;
    push_columns(alloc, &mut bytes, schema)?;
    Ok(bytes)
}

/// The TABLE_MAP_EVENT of a table id.
pub fn write_map(
    alloc: Global,
    id: u64,
    db: &Name,
    table: &Name,
    schema: &Schema,
) -> Result<Vec<u8>, AllocError>
    requires id { id < 2 ^ 48 }
    requires names { (length db.now ≤ 255) × (length table.now ≤ 255) }
    requires kinds { IsTrue (list_all (λ c. has_map c.kind) schema.now.columns) }
    requires size { length (map_event id db.now table.now schema.now) < 2 ^ 32 }
    ensures value { IfOk result (λ bytes. bytes.items ≡ map_event id db.now table.now schema.now) }
    ensures whole { IfOk result (λ bytes. IsWholeEvent TABLE_MAP bytes.items) }
    ensures read_back { IfOk result (λ bytes.
        table_map_of (drop 19 bytes.items)
        ≡ Some (record { id = id; db = db.now; table = table.now; columns = maps_of schema.now.columns })) }
{
    let body = map_body(alloc, id, db.as_slice(), table.as_slice(), schema)?;
    event(alloc, TABLE_MAP, &body)
}

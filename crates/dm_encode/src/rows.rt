ghost use Rattle.std.specs.Prelude.{◌≡◌, ◌≤◌, ◌<◌, ◌^◌, ◌++◌, length, drop, map, true, Some, IsTrue, IfOk, OnOk};
ghost use Rattle.std.specs.List.{list_all};
ghost use Rattle.std.specs.Cmp.Lexicographic.{pointwise};
ghost use Rattle.dm_schema.specs.Fits.{fits};
ghost use Rattle.dm_schema.specs.Kinds.{is_column, is_null};
ghost use Rattle.dm_binlog.specs.Bodies.{rows_head_of};
ghost use Rattle.dm_encode.specs.Kinds.{has_map, is_mapped};
ghost use Rattle.dm_encode.specs.Rows.{row_image, spelled_values};
ghost use Rattle.dm_encode.specs.Events.{images, maps_of, present, rows_body, rows_event, rows_front, rows_kind, rows_of, second_present};
ghost use Rattle.dm_encode.specs.ReadBack.{IsWholeEvent, ReadsRows};

use crate::bitmaps::push_bitmap;
use crate::events::event;
use crate::numbers::{push_le, push_lenenc};
use crate::values::push_value;
use dm_binlog::{DELETE_ROWS, UPDATE_ROWS, WRITE_ROWS};
use dm_schema::{Column, RowChange, Schema};
use dm_value::Value;
use std::alloc::{AllocError, Global};

fn is_null(value: &Value) -> bool
    ensures { result ≡ is_null value.now }
{
    matches!(value, Value::Null)
}

fn nulls_of(alloc: Global, row: &[Value]) -> Result<Vec<bool>, AllocError>
    ensures { IfOk result (λ bits. bits.items ≡ map is_null row.now) }
{
    row.iter().map(is_null).collect(alloc)
}

fn present_of(alloc: Global, columns: &[Column]) -> Result<Vec<bool>, AllocError>
    ensures { IfOk result (λ bits. bits.items ≡ map (λ c. true) columns.now) }
{
    columns.iter().map(|_column| true).collect(alloc)
}

/// Adds the values of a row.
fn push_values(bytes: &mut Vec<u8>, columns: &[Column], row: &[Value]) -> Result<(), AllocError>
    requires columns { IsTrue (list_all is_column columns.now) }
    requires maps { IsTrue (list_all (λ c. has_map c.kind) columns.now) }
    requires fits { IsTrue (pointwise fits row.now columns.now) }
    ensures value { OnOk result (bytes.new.items ≡ bytes.old.items ++ spelled_values columns.now row.now) }
    ensures mapped { OnOk result (IsTrue (list_all (λ c. is_mapped c.kind) columns.now)) }
{
    let [column, columns @ ..] = columns else {
        return Ok(());
    };
    let [value, row @ ..] = row else {
        return Ok(());
    };
    push_value(bytes, column, value)?;
    push_values(bytes, columns, row)
}

/// Adds the image of a row.
fn push_image(
    alloc: Global,
    bytes: &mut Vec<u8>,
    columns: &[Column],
    row: &[Value],
) -> Result<(), AllocError>
    requires columns { IsTrue (list_all is_column columns.now) }
    requires maps { IsTrue (list_all (λ c. has_map c.kind) columns.now) }
    requires fits { IsTrue (pointwise fits row.now columns.now) }
    ensures value { OnOk result (bytes.new.items ≡ bytes.old.items ++ row_image columns.now row.now) }
    ensures mapped { OnOk result (IsTrue (list_all (λ c. is_mapped c.kind) columns.now)) }
{
    let nulls = nulls_of(alloc, row)?;
    push_bitmap(bytes, &nulls)?;
    push_values(bytes, columns, row)
}

/// Adds the images of a change's rows, the old one before the new.
fn push_images(
    alloc: Global,
    bytes: &mut Vec<u8>,
    columns: &[Column],
    change: &RowChange,
) -> Result<(), AllocError>
    requires columns { IsTrue (list_all is_column columns.now) }
    requires maps { IsTrue (list_all (λ c. has_map c.kind) columns.now) }
    requires fits { IsTrue (list_all (λ row. pointwise fits row columns.now) (rows_of change.now)) }
    ensures value { OnOk result (bytes.new.items ≡ bytes.old.items ++ images columns.now change.now) }
    ensures mapped { OnOk result (IsTrue (list_all (λ c. is_mapped c.kind) columns.now)) }
{
    match change {
        RowChange::Insert(row) | RowChange::Delete(row) => {
            push_image(alloc, bytes, columns, row.as_slice())
        }
        RowChange::Update(old, new) => {
            push_image(alloc, bytes, columns, old.as_slice())?;
            push_image(alloc, bytes, columns, new.as_slice())
        }
    }
}

fn rows_kind(change: &RowChange) -> u8
    ensures { result ≡ rows_kind change.now }
{
    match change {
        RowChange::Insert(_) => WRITE_ROWS,
        RowChange::Update(_, _) => UPDATE_ROWS,
        RowChange::Delete(_) => DELETE_ROWS,
    }
}

fn push_present(alloc: Global, bytes: &mut Vec<u8>, columns: &[Column]) -> Result<(), AllocError>
    ensures { OnOk result (bytes.new.items ≡ bytes.old.items ++ present columns.now) }
{
    let bits = present_of(alloc, columns)?;
    push_bitmap(bytes, &bits)
}

/// Adds the bitmap of an update's new image.
fn push_second(
    alloc: Global,
    bytes: &mut Vec<u8>,
    columns: &[Column],
    change: &RowChange,
) -> Result<(), AllocError>
    ensures { OnOk result (bytes.new.items ≡ bytes.old.items ++ second_present change.now columns.now) }
{
    match change {
        RowChange::Update(_, _) => push_present(alloc, bytes, columns),
        RowChange::Insert(_) | RowChange::Delete(_) => Ok(()),
    }
}

/// What stands before the images.
fn rows_front(
    alloc: Global,
    id: u64,
    columns: &[Column],
    change: &RowChange,
) -> Result<Vec<u8>, AllocError>
    ensures { IfOk result (λ bytes. bytes.items ≡ rows_front id columns.now change.now) }
{
    let mut bytes = Vec::new(alloc);
    push_le(&mut bytes, 6, id)?;
    push_le(&mut bytes, 2, 1)?;
    push_le(&mut bytes, 2, 2)?;
    push_lenenc(&mut bytes, columns.len() as u64)?;
    push_present(alloc, &mut bytes, columns)?;
    push_second(alloc, &mut bytes, columns, change)?;
    Ok(bytes)
}

pub fn rows_body(
    alloc: Global,
    id: u64,
    schema: &Schema,
    change: &RowChange,
) -> Result<Vec<u8>, AllocError>
    requires maps { IsTrue (list_all (λ c. has_map c.kind) schema.now.columns) }
    requires fits { IsTrue (list_all (λ row. pointwise fits row schema.now.columns) (rows_of change.now)) }
    ensures value { IfOk result (λ bytes. bytes.items ≡ rows_body id schema.now change.now) }
    ensures columns { OnOk result (IsTrue (list_all is_column schema.now.columns)) }
    ensures mapped { OnOk result (IsTrue (list_all (λ c. is_mapped c.kind) schema.now.columns)) }
{
    let columns = schema.columns();
    let mut bytes = rows_front(alloc, id, columns, change)?;
    push_images(alloc, &mut bytes, columns, change)?;
    Ok(bytes)
}

/// The rows event of a table id for a change of one row.
pub fn write_rows(
    alloc: Global,
    id: u64,
    schema: &Schema,
    change: &RowChange,
) -> Result<Vec<u8>, AllocError>
    requires id { id < 2 ^ 48 }
    requires kinds { IsTrue (list_all (λ c. has_map c.kind) schema.now.columns) }
    requires fits { IsTrue (list_all (λ row. pointwise fits row schema.now.columns) (rows_of change.now)) }
    requires size { length (rows_event id schema.now change.now) < 2 ^ 32 }
    ensures value { IfOk result (λ bytes. bytes.items ≡ rows_event id schema.now change.now) }
    ensures whole { IfOk result (λ bytes. IsWholeEvent (rows_kind change.now) bytes.items) }
    ensures head { IfOk result (λ bytes.
        rows_head_of (rows_kind change.now) (drop 19 bytes.items)
        ≡ Some (record { id = id; count = length schema.now.columns; full = true; rows = length (rows_front id schema.now.columns change.now) })) }
    ensures images { IfOk result (λ bytes.
        ReadsRows (maps_of schema.now.columns) schema.now (drop (length (rows_front id schema.now.columns change.now)) (drop 19 bytes.items)) (rows_of change.now)) }
{
    let body = rows_body(alloc, id, schema, change)?;
    event(alloc, rows_kind(change), &body)
}

//! The change of a row that an item stands for, read again from its place.

ghost use Rattle.std.specs.Prelude.{◌≡◌, ◌==◌, ◌+◌, ◌-◌, ◌<◌, ◌≤◌, ◌^◌, Some, drop, length, slice_get, slice_range, IfOk, IsTrue, MatchOption};
ghost use Rattle.std.specs.List.{find};
ghost use Rattle.std.specs.Option.{option_copied};
ghost use Rattle.dm_binlog.specs.Framing.{event_size};
ghost use Rattle.dm_dump.specs.Orders.{order_at};
ghost use Rattle.dm_files.specs.Files.{bytes_of, are_short};
ghost use Rattle.dm_track.specs.Changes.{change_at, change_fits, change_of, dumped, is_row, orders_of};
ghost use Rattle.dm_decode.specs.Rows.{is_memory, row_of};
ghost use Rattle.dm_track.specs.Histories.{schema_at};
ghost use Rattle.dm_track.specs.Steps.{read_of};
ghost use Rattle.dm_walk.specs.Changes.{change_in, end_of, logged_change, map_at};

use crate::history::{FileOrders, History};
use crate::inputs::Inputs;
use byteorder::{ByteOrder, LittleEndian};
use dm_binlog::{TableMap, read_table_map};
use dm_decode::{RowFault, decode_row};
use dm_dump::{InsertOrder, row_at};
use dm_files::{NamedFile, bytes_of};
use dm_schema::{RowChange, Schema};
use dm_value::Row;
use dm_walk::{Item, Place, PlaceKind};
use std::alloc::{AllocError, Global};

/// How many bytes an event's header has.
const HEADER_LENGTH: u64 = 19;

/// The bytes of a file from a place up to an end, as far as they are there.
fn bytes_between(file: &[u8], from: u64, end: u64) -> &[u8]
    ensures bytes { result.now ≡ slice_range file.now from end }
    ensures within { length result.now ≤ length file.now }
{
    let end = (end as usize).min(file.len());
    &file[(from as usize).min(end)..end]
}

/// The size in an event's header, as far as it is there.
fn event_size(event: &[u8]) -> u32
    ensures { result ≡ event_size event.now }
{
    let size = bytes_between(event, 9, 13);
    if size.is_empty() {
        return 0;
    }
    LittleEndian::read_uint(size, size.len()) as u32
}

/// Where the event at a place ends.
fn end_of(file: &[u8], at: u32) -> u64
    ensures { result ≡ end_of file.now at }
{
    let event = &file[(at as usize).min(file.len())..];
    u64::from(at) + u64::from(event_size(event))
}

/// The table map whose event stands at a place.
fn map_at(alloc: Global, file: &[u8], at: u32) -> Result<Option<TableMap>, AllocError>
    ensures { IfOk result (λ map. map ≡ map_at file.now at) }
{
    let body = bytes_between(file, u64::from(at) + HEADER_LENGTH, end_of(file, at));
    read_table_map(alloc, body)
}

/// The order of literals in force at a place.
fn order_at(orders: &[InsertOrder], at: u32) -> Option<&InsertOrder>
    ensures { option_copied result ≡ order_at orders.now at }
{
    orders.iter().rev().find(|order| order.first <= at)
}

fn file_orders(all: &[FileOrders], number: u32) -> Option<&FileOrders>
    ensures { option_copied result ≡ find (λ f. f.number == number) all.now }
{
    all.iter().find(|file| file.number == number)
}

/// The orders of columns of a file.
fn orders_of(all: &[FileOrders], number: u32) -> &[InsertOrder]
    ensures { result.now ≡ orders_of all.now number }
{
    match file_orders(all, number) {
        Some(file) => file.orders.as_slice(),
        None => &[],
    }
}

fn read_dumped(
    alloc: Global,
    file: &[u8],
    orders: &[InsertOrder],
    at: u32,
    schema: &Schema,
) -> Result<Option<RowChange>, AllocError>
    ensures { IfOk result (λ change. change ≡ dumped file.now orders.now at schema.now) }
{
    let Some(order) = order_at(orders, at) else {
        return Ok(None);
    };
    match row_at(alloc, file, at, &order.order, schema)? {
        Some(row) => Ok(Some(RowChange::Insert(row))),
        None => Ok(None),
    }
}

fn lacks_memory(fault: &RowFault) -> bool
    ensures { result ≡ is_memory fault.now }
{
    matches!(fault, RowFault::Memory)
}

/// The row that bytes begin with and how many bytes it takes, if it can be read.
fn read_row(
    alloc: Global,
    map: &TableMap,
    schema: &Schema,
    bytes: &[u8],
) -> Result<Option<(Row, u32)>, AllocError>
    requires { length bytes.now < 2 ^ 32 }
    ensures { IfOk result (λ read. read ≡ read_of (row_of map.now.columns schema.now bytes.now)) }
{
    match decode_row(alloc, bytes, map, schema) {
        Ok(read) => Ok(Some(read)),
        Err(fault) => {
            if lacks_memory(&fault) {
                Err(AllocError)
            } else {
                Ok(None)
            }
        }
    }
}

fn behind(bytes: &[u8], count: u32) -> &[u8]
    ensures bytes { result.now ≡ drop count bytes.now }
    ensures within { length result.now ≤ length bytes.now }
{
    &bytes[(count as usize).min(bytes.len())..]
}

/// The change of a kind that bytes begin with.
fn change_in(
    alloc: Global,
    kind: PlaceKind,
    map: &TableMap,
    schema: &Schema,
    bytes: &[u8],
) -> Result<Option<RowChange>, AllocError>
    requires { length bytes.now < 2 ^ 32 }
    ensures { IfOk result (λ change. change ≡ change_in kind map.now.columns schema.now bytes.now) }
{
    let Some((row, size)) = read_row(alloc, map, schema, bytes)? else {
        return Ok(None);
    };
    match kind {
        PlaceKind::Write => Ok(Some(RowChange::Insert(row))),
        PlaceKind::Delete => Ok(Some(RowChange::Delete(row))),
        PlaceKind::Update => match read_row(alloc, map, schema, behind(bytes, size))? {
            Some((new, _)) => Ok(Some(RowChange::Update(row, new))),
            None => Ok(None),
        },
        PlaceKind::Dumped | PlaceKind::Statement => Ok(None),
    }
}

fn read_logged(
    alloc: Global,
    file: &[u8],
    place: &Place,
    schema: &Schema,
) -> Result<Option<RowChange>, AllocError>
    requires { length file.now < 2 ^ 32 }
    ensures { IfOk result (λ change. change ≡ logged_change file.now place.now schema.now) }
{
    let Some(map) = map_at(alloc, file, place.map)? else {
        return Ok(None);
    };
    let bytes = bytes_between(file, u64::from(place.at), end_of(file, place.event));
    change_in(alloc, place.kind, &map, schema, bytes)
}

/// The change that stands at a place, by the schema there.
fn read_change(
    alloc: Global,
    files: &[NamedFile],
    orders: &[FileOrders],
    place: &Place,
    schema: &Schema,
) -> Result<Option<RowChange>, AllocError>
    requires { IsTrue (are_short files.now) }
    ensures { IfOk result (λ change. change ≡ change_at files.now orders.now place.now schema.now) }
{
    let file = bytes_of(files, place.file);
    match place.kind {
        PlaceKind::Dumped => {
            read_dumped(alloc, file, orders_of(orders, place.file), place.at, schema)
        }
        PlaceKind::Write | PlaceKind::Update | PlaceKind::Delete | PlaceKind::Statement => {
            read_logged(alloc, file, place, schema)
        }
    }
}

/// The change of the item of a number, if it is a row that can be read.
fn read_item(
    alloc: Global,
    files: &[NamedFile],
    history: &History,
    number: u64,
) -> Result<Option<RowChange>, AllocError>
    requires { IsTrue (are_short files.now) }
    ensures { IfOk result (λ change. change ≡ change_of files.now history.now number) }
{
    let Some(position) = number.checked_sub(1) else {
        return Ok(None);
    };
    match history.item(number) {
        Some(Item::Row(place)) => {
            let schema = history.schema_at(position);
            read_change(alloc, files, history.orders(), place, schema)
        }
        Some(Item::Ddl(_)) | None => Ok(None),
    }
}

/// Whether there is such a shard, and its item of this number is a row.
pub fn is_row(inputs: &Inputs, shard: u32, number: u64) -> bool
    ensures { result ≡ is_row inputs.now.histories shard number }
{
    match inputs.histories().get(u64::from(shard)) {
        Some(history) => matches!(history.item(number), Some(Item::Row(_))),
        None => false,
    }
}

/// The change of a shard's row item, read again from its place.
pub fn change_at(
    alloc: Global,
    inputs: &Inputs,
    shard: u32,
    number: u64,
) -> Result<RowChange, AllocError>
    requires { IsTrue (is_row inputs.now.histories shard number) }
    ensures change { IfOk result (λ change. MatchOption (slice_get inputs.now.histories shard) ⊥ (λ h. change_of inputs.now.files h number ≡ Some change)) }
    ensures fits { IfOk result (λ change. MatchOption (slice_get inputs.now.histories shard) ⊥ (λ h. IsTrue (change_fits (schema_at h (number - 1)) change))) }
{
    let files = inputs.files().as_slice();
    let Some(history) = inputs.histories().get(u64::from(shard)) else {
        unreachable!()
    };
    match read_item(alloc, files, history, number)? {
        Some(change) => Ok(change),
        None => unreachable!(),
    }
}

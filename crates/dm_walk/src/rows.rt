ghost use Rattle.std.specs.Prelude.{◌≡◌, ◌≤◌, ◌<◌, ◌+◌, ◌-◌, ◌^◌, ◌++◌, suc, map, length, slice_range, IfOk};
ghost use Rattle.std.specs.Option.{option_map};
ghost use Rattle.dm_list.specs.Answer.{Answers};
ghost use Rattle.dm_decode.specs.Rows.{is_memory};
ghost use Rattle.dm_walk.specs.Causes.{row_cause};
ghost use Rattle.dm_walk.specs.Steps.{has_two, placed_row};
ghost use Rattle.dm_walk.specs.Walks.{change_size, images_from, place_kind, rows_kind};

use crate::cause::row_cause;
use crate::{Item, Place, PlaceKind};
use dm_binlog::{TableMap, UPDATE_ROWS, UPDATE_ROWS_V1, WRITE_ROWS, WRITE_ROWS_V1};
use dm_decode::{RowFault, decode_row};
use dm_route::EventKind;
use dm_schema::Schema;
use dm_stream::BadCause;
use std::alloc::{AllocError, Global};

/// What a rows event does, as filters tell events apart.
pub fn rows_kind(code: u8) -> EventKind
    ensures { result ≡ rows_kind code }
{
    match code {
        WRITE_ROWS_V1 | WRITE_ROWS => EventKind::Insert,
        UPDATE_ROWS_V1 | UPDATE_ROWS => EventKind::Update,
        _ => EventKind::Delete,
    }
}

pub fn place_kind(code: u8) -> PlaceKind
    ensures { result ≡ place_kind code }
{
    match code {
        WRITE_ROWS_V1 | WRITE_ROWS => PlaceKind::Write,
        UPDATE_ROWS_V1 | UPDATE_ROWS => PlaceKind::Update,
        _ => PlaceKind::Delete,
    }
}

/// Whether a change has two images.
fn has_two(kind: PlaceKind) -> bool
    ensures { result ≡ has_two kind }
{
    matches!(kind, PlaceKind::Update)
}

/// The bytes of a file from a place up to an end, as far as they are there.
pub fn bytes_between(file: &[u8], from: usize, end: usize) -> &[u8]
    ensures { result.now ≡ slice_range file.now from end }
{
    let end = end.min(file.len());
    &file[from.min(end)..end]
}

/// How many bytes the change of a row takes that bytes begin with.
fn change_size(
    alloc: Global,
    update: bool,
    table: &TableMap,
    schema: &Schema,
    bytes: &[u8],
) -> Result<u32, RowFault>
    requires { length bytes.now < 2 ^ 32 }
    ensures value { Answers is_memory result (change_size update table.now.columns schema.now bytes.now) }
    ensures within { IfOk result (λ size. size ≤ length bytes.now) }
{
    let (_row, size) = decode_row(alloc, bytes, table, schema)?;
    if !update {
        return Ok(size);
    }
    let (_row, second) = decode_row(alloc, &bytes[size as usize..], table, schema)?;
    Ok(size + second)
}

/// How far from a change the next one is. A change has a byte at least, that of its bitmap.
fn step_over(size: u32) -> usize
    ensures { result ≡ suc (size - 1) }
{
    if size == 0 { 1 } else { size as usize }
}

/// Adds the changes that an event's rows are, up to the first that is none, and says why that is none. The rows' bytes
/// stand in the file from a byte on; `place` tells of the event.
pub fn add_changes(
    alloc: Global,
    items: &mut Vec<Item>,
    place: Place,
    table: &TableMap,
    schema: &Schema,
    from: usize,
    bytes: &[u8],
) -> Result<Option<BadCause>, AllocError>
    requires { 0 < length bytes.now → from + length bytes.now < 2 ^ 32 }
    ensures items { IfOk result (λ _. items.new.items ≡ items.old.items ++ map (placed_row place) (images_from (has_two place.kind) table.now.columns schema.now from 0 bytes.now).places) }
    ensures cause { IfOk result (λ cause. cause ≡ option_map row_cause (images_from (has_two place.kind) table.now.columns schema.now from 0 bytes.now).fault) }
{
    let update = has_two(place.kind);
    let mut at = 0;
    while at < bytes.len() {
        match change_size(alloc, update, table, schema, &bytes[at..]) {
            Ok(size) => {
                let row = Place {
                    at: (from + at) as u32,
                    ..place
                };
                items.push(Item::Row(row))?;
                at += step_over(size);
            }
            Err(fault) => return Ok(Some(row_cause(fault)?)),
        }
    }
    Ok(None)
}

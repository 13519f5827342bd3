ghost use Rattle.std.specs.Prelude.{◌≡◌, ◌≤◌, ◌<◌, ◌*◌, ◌^◌, IsTrue, IfOk, length};
ghost use Rattle.std.specs.List.{list_all, zip};
ghost use Rattle.std.specs.Option.{option_copied, option_map};
ghost use Rattle.dm_list.specs.Answer.{Answers};
ghost use Rattle.dm_schema.specs.Kinds.{is_column, is_kind};
ghost use Rattle.dm_decode.specs.Rows.{Decodes, differing, flawed, is_memory, row_of, value_at, values_from};

use crate::fault::RowFault;
use crate::flaw::Flaw;
use crate::types::goes_with;
use crate::values::{fitting_value, value_bytes};
use dm_base::Cursor;
use dm_binlog::{ColumnMap, TableMap, bitmap_length, is_set};
use dm_list::Copied;
use dm_schema::{Column, Schema};
use dm_value::{Row, Value};
use std::alloc::{AllocError, Global};

/// The fault of a column's value.
fn flawed(alloc: Global, column: &Column, flaw: Flaw) -> Result<RowFault, AllocError>
    ensures { IfOk result (λ fault. fault ≡ flawed column.now flaw) }
{
    let column = column.name.copy(alloc)?;
    Ok(match flaw {
        Flaw::GreatGroup => RowFault::BadDecimal { column },
        Flaw::NoDate => RowFault::BadDate { column },
        Flaw::NotOfKind => RowFault::Unfit { column },
        Flaw::Memory => RowFault::Memory,
    })
}

/// The value of a column at a place: NULL has no bytes.
fn value_at(
    alloc: Global,
    cursor: &mut Cursor<'_>,
    column: &Column,
    map: ColumnMap,
    is_null: bool,
) -> Result<Value, RowFault>
    requires { IsTrue (is_kind column.now.kind) }
    ensures { Decodes (value_at (column.now, map) is_null cursor.old) result cursor.new }
{
    if is_null {
        return if column.nullable {
            Ok(Value::Null)
        } else {
            Err(flawed(alloc, column, Flaw::NotOfKind)?)
        };
    }
    let Some(bytes) = value_bytes(cursor, column.kind, map) else {
        return Err(RowFault::Short);
    };
    match fitting_value(alloc, column.kind, bytes) {
        Ok(value) => Ok(value),
        Err(flaw) => Err(flawed(alloc, column, flaw)?),
    }
}

/// The first column whose type isn't that of its kind.
fn differing<'a>(columns: &'a [Column], maps: &[ColumnMap]) -> Option<&'a Column>
    ensures { option_copied result ≡ option_map (λ p. p.0) (differing (zip columns.now maps.now)) }
{
    let [column, columns @ ..] = columns else {
        return None;
    };
    let [map, maps @ ..] = maps else {
        return None;
    };
    if goes_with(column.kind, *map) {
        differing(columns, maps)
    } else {
        Some(column)
    }
}

/// The values of the columns, one behind another.
fn values_of(
    alloc: Global,
    cursor: &mut Cursor<'_>,
    nulls: &[u8],
    columns: &[Column],
    maps: &[ColumnMap],
) -> Result<Row, RowFault>
    requires columns { IsTrue (list_all is_column columns.now) }
    requires nulls { length columns.now ≤ 8 * length nulls.now }
    ensures { Decodes (values_from nulls.now 0 (zip columns.now maps.now) cursor.old) result cursor.new }
{
    let mut values = Vec::with_capacity(alloc, columns.len())?;
    for (column, map) in columns.iter().zip(maps) {
        let is_null = is_set(nulls, values.len() as u64);
        values.push(value_at(alloc, cursor, column, *map, is_null)?)?;
    }
    Ok(Row::new(values))
}

/// The row that bytes begin with, its values in the order of the schema's columns, and how many bytes it takes.
///
/// The first fault comes: another number of columns, then the first column of another type, then that the bitmap isn't
/// there, and then, column by column, that its bytes aren't there or aren't one of its values.
pub fn decode_row(
    alloc: Global,
    bytes: &[u8],
    map: &TableMap,
    schema: &Schema,
) -> Result<(Row, u32), RowFault>
    requires { length bytes.now < 2 ^ 32 }
    ensures { Answers is_memory result (row_of map.now.columns schema.now bytes.now) }
{
    let columns = schema.columns();
    let maps = map.columns.as_slice();
    if columns.len() != maps.len() {
        return Err(RowFault::Count);
    }
    if let Some(column) = differing(columns, maps) {
        let column = column.name.copy(alloc)?;
        return Err(RowFault::TypeDiffers { column });
    }
    let mut cursor = Cursor::new(bytes);
    let Some(nulls) = cursor.take(bitmap_length(columns.len() as u64)) else {
        return Err(RowFault::Short);
    };
    let row = values_of(alloc, &mut cursor, nulls, columns, maps)?;
    Ok((row, cursor.place() as u32))
}

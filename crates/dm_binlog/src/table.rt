ghost use Rattle.std.specs.Prelude.{◌≡◌, ◌≤◌, None, length, IfOk, MatchOption};
ghost use Rattle.std.specs.Option.{option_map};
ghost use Rattle.dm_base.specs.Reading.{Gives, le_value};
ghost use Rattle.dm_binlog.specs.Bodies.{column_maps, counted_name, meta_width, table_map_of};
ghost use Rattle.dm_binlog.specs.Tables.{table_map_with};

use crate::bodies::{ColumnMap, TableMap, closed};
use crate::rows::bitmap_length;
use crate::type_code;
use dm_base::Cursor;
use dm_list::Sequence;
use dm_value::Name;
use std::alloc::{AllocError, Global};

/// How many bytes of metadata a type code has.
fn meta_width(code: u8) -> usize
    ensures { result ≡ meta_width code }
{
    match code {
        type_code::FLOAT
        | type_code::DOUBLE
        | type_code::TIMESTAMP2
        | type_code::DATETIME2
        | type_code::TIME2 => 1,
        type_code::VECTOR | type_code::JSON | type_code::BLOB | type_code::GEOMETRY => 1,
        type_code::VARCHAR
        | type_code::BIT
        | type_code::NEWDECIMAL
        | type_code::ENUM
        | type_code::SET => 2,
        type_code::VAR_STRING | type_code::STRING => 2,
        _ => 0,
    }
}

/// The number in up to two bytes of metadata.
fn meta_of(bytes: &[u8]) -> u16
    requires { length bytes.now ≤ 2 }
    ensures { result ≡ le_value bytes.now }
{
    match bytes {
        [low] => u16::from(*low),
        [low, high] => u16::from(*low) + 256 * u16::from(*high),
        _ => 0,
    }
}

/// Each code with its metadata; `None` where there is too little of it.
fn column_maps(
    alloc: Global,
    codes: &[u8],
    metadata: &[u8],
) -> Result<Option<Vec<ColumnMap>>, AllocError>
    ensures { IfOk result (λ columns. option_map (λ v. v.items) columns ≡ column_maps codes.now metadata.now) }
{
    let mut columns = Vec::with_capacity(alloc, codes.len())?;
    let mut rest = metadata;
    for code in codes {
        let Some((meta, behind)) = rest.split_at_checked(meta_width(*code)) else {
            return Ok(None);
        };
        columns.push(ColumnMap {
            code: *code,
            meta: meta_of(meta),
        })?;
        rest = behind;
    }
    Ok(Some(columns))
}

/// A name behind its length, with a 0 byte behind it.
fn counted_name<'a>(cursor: &mut Cursor<'a>) -> Option<&'a [u8]>
    ensures { Gives counted_name cursor.old (option_map (λ p. p.now) result) cursor.new }
{
    let length = cursor.le(1)?;
    let name = cursor.take(length)?;
    closed(name, cursor)
}

/// The fields of a table map.
#[derive(Clone, Copy)]
struct Fields<'a> {
    id: u64,
    db: &'a [u8],
    table: &'a [u8],
    codes: &'a [u8],
    metadata: &'a [u8],
}

fn fields_of(body: &[u8]) -> Option<Fields<'_>>
    ensures { MatchOption result (table_map_of body.now ≡ None)
        (λ f. table_map_of body.now ≡ table_map_with f.id f.db.now f.table.now (column_maps f.codes.now f.metadata.now)) }
{
    let mut cursor = Cursor::new(body);
    let id = cursor.le(6)?;
    let _flags = cursor.le(2)?;
    let db = counted_name(&mut cursor)?;
    let table = counted_name(&mut cursor)?;
    let count = cursor.lenenc()?;
    let codes = cursor.take(count)?;
    let meta_length = cursor.lenenc()?;
    let metadata = cursor.take(meta_length)?;
    let _nullable = cursor.take(bitmap_length(count))?;
    Some(Fields {
        id,
        db,
        table,
        codes,
        metadata,
    })
}

/// The body of a TABLE_MAP_EVENT.
pub fn read_table_map(alloc: Global, body: &[u8]) -> Result<Option<TableMap>, AllocError>
    ensures { IfOk result (λ map. map ≡ table_map_of body.now) }
{
    let Some(fields) = fields_of(body) else {
        return Ok(None);
    };
    let Some(columns) = column_maps(alloc, fields.codes, fields.metadata)? else {
        return Ok(None);
    };
    Ok(Some(TableMap {
        id: fields.id,
        db: Name::new(fields.db.to_vec(alloc)?),
        table: Name::new(fields.table.to_vec(alloc)?),
        columns: Sequence::new(columns),
    }))
}

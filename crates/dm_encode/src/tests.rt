ghost use Rattle.std.specs.Prelude.{◌≡◌, ◌≤◌, length, nat_le, true, IfOk, IsTrue};
ghost use Rattle.std.specs.List.{list_all};
ghost use Rattle.std.specs.Cmp.Lexicographic.{pointwise};
ghost use Rattle.dm_schema.specs.Fits.{fits, fits_by};
ghost use Rattle.dm_schema.specs.Kinds.{is_column, is_folded, is_kind};
ghost use Rattle.dm_encode.specs.Kinds.{has_map};

use crate::kinds::column_map;
use crate::maps::map_body;
use crate::numbers::push_lenenc;
use crate::rows::rows_body;
use crate::values::push_value;
use crate::{write_format, write_map, write_query, write_rows};
use dm_schema::{Column, DefaultRule, Kind, Names, RowChange, Schema, SchemaFault, fits};
use dm_value::{Day, Dec, Moment, Name, Row, Stamp, Value};
use std::alloc::{AllocError, Global};
use std::test::Fail;

fn lenenc(alloc: Global, number: u64) -> Result<Vec<u8>, AllocError> {
    let mut bytes = Vec::new(alloc);
    push_lenenc(&mut bytes, number)?;
    Ok(bytes)
}

#[test]
fn writes_lengths(rt: HostRuntime) -> Result<(), Fail> {
    let alloc = rt.alloc();
    assert_eq!(rt; lenenc(alloc, 250)?.as_slice(), b"\xfa".as_slice());
    assert_eq!(rt; lenenc(alloc, 251)?.as_slice(), b"\xfc\xfb\0".as_slice());
    assert_eq!(rt;
        lenenc(alloc, 65_536)?.as_slice(),
        b"\xfd\0\0\x01".as_slice()
    );
    Ok(())
}

#[test]
fn writes_a_format(rt: HostRuntime) -> Result<(), Fail> {
    let bytes = write_format(rt.alloc())?;
    assert_eq!(rt; bytes.len(), 119);
    Ok(())
}

fn query_bytes(alloc: Global, db: &Name, statement: &[u8]) -> Result<Vec<u8>, AllocError>
    requires db { length db.now ≤ 255 }
    requires statement { length statement.now ≤ 100 }
{
    write_query(alloc, db, statement)
}

#[test]
fn writes_a_statement(rt: HostRuntime) -> Result<(), Fail> {
    let alloc = rt.alloc();
    let db = Name::new([b's'].to_vec(alloc)?);
    let bytes = query_bytes(alloc, &db, b"COMMIT")?;
    let header = b"\0\0\0\0\x02\0\0\0\0\x28\0\0\0\0\0\0\0\0\0";
    assert!(rt; bytes.starts_with(header));
    let body = b"\0\0\0\0\0\0\0\0\x01\0\0\0\0s\0COMMIT";
    assert!(rt; bytes.ends_with(body));
    assert_eq!(rt; bytes.len(), 40);
    Ok(())
}

fn spelled(alloc: Global, kind: Kind, value: &Value) -> Result<Vec<u8>, AllocError>
    requires kind { IsTrue (is_kind kind) }
    requires maps { IsTrue (has_map kind) }
    requires fits { IsTrue (fits_by kind true value.now) }
{
    let column = Column {
        name: Name::new(Vec::new(alloc)),
        kind,
        nullable: true,
        default_rule: DefaultRule::Nothing,
    };
    let mut bytes = Vec::new(alloc);
    push_value(&mut bytes, &column, value)?;
    Ok(bytes)
}

#[test]
fn writes_decimals(rt: HostRuntime) -> Result<(), Fail> {
    let alloc = rt.alloc();
    let positive = Value::Dec(Dec {
        digits: 12_345_678_901_234,
        scale: 4,
    });
    let bytes = spelled(alloc, Kind::Decimal(14, 4), &positive)?;
    assert_eq!(rt;
        bytes.as_slice(),
        b"\x81\x0d\xfb\x38\xd2\x04\xd2".as_slice()
    );
    let negative = Value::Dec(Dec {
        digits: -12_345_678_901_234,
        scale: 4,
    });
    let bytes = spelled(alloc, Kind::Decimal(14, 4), &negative)?;
    assert_eq!(rt;
        bytes.as_slice(),
        b"\x7e\xf2\x04\xc7\x2d\xfb\x2d".as_slice()
    );
    Ok(())
}

#[test]
fn writes_a_small_decimal(rt: HostRuntime) -> Result<(), Fail> {
    let least = Value::Dec(Dec {
        digits: -1,
        scale: 10,
    });
    let bytes = spelled(rt.alloc(), Kind::Decimal(38, 10), &least)?;
    let expected = b"\x7f\xff\xff\xff\xff\xff\xff\xff\xff\xff\xff\xff\xff\xff\xff\xff\xff\xfe";
    assert_eq!(rt; bytes.as_slice(), expected.as_slice());
    Ok(())
}

const LEAP_DAY: Day = Day {
    year: 2024,
    month: 2,
    day: 29,
};

#[test]
fn writes_a_date(rt: HostRuntime) -> Result<(), Fail> {
    let bytes = spelled(rt.alloc(), Kind::Date, &Value::Date(LEAP_DAY))?;
    assert_eq!(rt; bytes.as_slice(), b"\x5d\xd0\x0f".as_slice());
    Ok(())
}

#[test]
fn writes_a_moment(rt: HostRuntime) -> Result<(), Fail> {
    let moment = Value::Moment(Moment {
        day: LEAP_DAY,
        hour: 23,
        minute: 59,
        second: 58,
        micros: 123_456,
    });
    let bytes = spelled(rt.alloc(), Kind::Datetime(6), &moment)?;
    assert_eq!(rt;
        bytes.as_slice(),
        b"\x99\xb2\xbb\x7e\xfa\x01\xe2\x40".as_slice()
    );
    Ok(())
}

#[test]
fn writes_a_stamp(rt: HostRuntime) -> Result<(), Fail> {
    let stamp = Value::Stamp(Stamp {
        seconds: 0x6592_0080,
        micros: 0,
    });
    let bytes = spelled(rt.alloc(), Kind::Timestamp(0), &stamp)?;
    assert_eq!(rt; bytes.as_slice(), b"\x65\x92\0\x80".as_slice());
    Ok(())
}

#[test]
fn writes_a_year(rt: HostRuntime) -> Result<(), Fail> {
    let bytes = spelled(rt.alloc(), Kind::Year, &Value::Int(2024))?;
    assert_eq!(rt; bytes.as_slice(), b"\x7c".as_slice());
    Ok(())
}

#[test]
fn a_char_of_300_bytes_has_length_bits(rt: HostRuntime) -> Result<(), Fail> {
    assert_eq!(rt; column_map(Kind::Char(75)).meta, 0x2cee);
    Ok(())
}

fn name(alloc: Global, text: &str) -> Result<Name, AllocError>
    ensures { IfOk result (λ name. name ≡ text.now) }
{
    Ok(Name::new(text.as_bytes().to_vec(alloc)?))
}

fn column(alloc: Global, text: &str, kind: Kind, nullable: bool) -> Result<Column, AllocError>
    requires { IsTrue (is_folded text.now) }
    ensures { IfOk result (λ c. (c.name ≡ text.now) × (c.kind ≡ kind) × (c.default_rule ≡ DefaultRule.Nothing)) }
{
    Ok(Column {
        name: name(alloc, text)?,
        kind,
        nullable,
        default_rule: DefaultRule::Nothing,
    })
}

fn columns(alloc: Global) -> Result<Vec<Column>, AllocError>
    ensures { IfOk result (λ columns. IsTrue (list_all is_column columns.items)) }
{
    let id = column(alloc, "id", Kind::Signed(4), false)?;
    let v = column(alloc, "v", Kind::Varchar(20), true)?;
    Ok(vec![in alloc; id, v]?)
}

/// `id` INT NOT NULL PRIMARY KEY, `v` VARCHAR(20).
fn table(alloc: Global) -> Result<Result<Schema, SchemaFault>, AllocError> {
    let primary = Names::new(vec![in alloc; name(alloc, "id")?]?);
    Ok(Schema::new(columns(alloc)?, primary, Vec::new(alloc)))
}

/// Whether each column has metadata.
fn have_maps(columns: &[Column]) -> bool
    ensures { result ≡ list_all (λ c. has_map c.kind) columns.now }
{
    columns
        .iter()
        .all(|column| !matches!(column.kind, Kind::Varchar(16_384..)))
}

/// Whether each value fits its column.
fn row_fits(row: &[Value], columns: &[Column]) -> bool
    requires { IsTrue (list_all is_column columns.now) }
    ensures { result ≡ pointwise fits row.now columns.now }
{
    match (row, columns) {
        ([], []) => true,
        ([value, row @ ..], [column, columns @ ..]) => {
            fits(value, column) && row_fits(row, columns)
        }
        _ => false,
    }
}

fn is_short(body: &[u8]) -> bool
    ensures { result ≡ nat_le (length body.now) 100 }
{
    body.len() <= 100
}

fn map_bytes(alloc: Global, schema: &Schema) -> Result<Vec<u8>, Fail> {
    if !have_maps(schema.columns()) {
        return Err("too long a VARCHAR")?;
    }
    let db = name(alloc, "s")?;
    let table = name(alloc, "t")?;
    let body = map_body(alloc, 5, db.as_slice(), table.as_slice(), schema)?;
    if !is_short(&body) {
        return Err("too long a body")?;
    }
    Ok(write_map(alloc, 5, &db, &table, schema)?)
}

#[test]
fn writes_a_map(rt: HostRuntime) -> Result<(), Fail> {
    let alloc = rt.alloc();
    let schema = table(alloc)?.map_err(|_| "no schema")?;
    let bytes = map_bytes(alloc, &schema)?;
    assert_eq!(rt;
        bytes.as_slice(),
        b"\0\0\0\0\x13\0\0\0\0\x28\0\0\0\0\0\0\0\0\0\x05\0\0\0\0\0\x01\0\x01s\0\x01t\0\x02\x03\x0f\x02\x50\0\x02".as_slice()
    );
    Ok(())
}

/// A row of the table.
fn row(alloc: Global, id: i128, v: Value) -> Result<Row, AllocError> {
    Ok(Row::new(vec![in alloc; Value::Int(id), v]?))
}

fn insert_bytes(alloc: Global, schema: &Schema, row: Row) -> Result<Vec<u8>, Fail> {
    if !have_maps(schema.columns()) || !row_fits(row.as_slice(), schema.columns()) {
        return Err("no row of the schema")?;
    }
    let change = RowChange::Insert(row);
    let body = rows_body(alloc, 5, schema, &change)?;
    if !is_short(&body) {
        return Err("too long a body")?;
    }
    Ok(write_rows(alloc, 5, schema, &change)?)
}

#[test]
fn writes_rows(rt: HostRuntime) -> Result<(), Fail> {
    let alloc = rt.alloc();
    let schema = table(alloc)?.map_err(|_| "no schema")?;
    let x = Value::Bytes(dm_schema::Bytes::new([b'x'].to_vec(alloc)?));
    let one = insert_bytes(alloc, &schema, row(alloc, 1, x)?)?;
    assert_eq!(rt;
        one.as_slice(),
        b"\0\0\0\0\x1e\0\0\0\0\x26\0\0\0\0\0\0\0\0\0\x05\0\0\0\0\0\x01\0\x02\0\x02\x03\0\x01\0\0\0\x01x".as_slice()
    );
    let two = insert_bytes(alloc, &schema, row(alloc, 2, Value::Null)?)?;
    assert_eq!(rt;
        two.as_slice(),
        b"\0\0\0\0\x1e\0\0\0\0\x24\0\0\0\0\0\0\0\0\0\x05\0\0\0\0\0\x01\0\x02\0\x02\x03\x02\x02\0\0\0".as_slice()
    );
    Ok(())
}

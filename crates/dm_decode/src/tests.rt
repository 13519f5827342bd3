ghost use Rattle.std.specs.Prelude.{◌≡◌, IfOk, IsTrue};
ghost use Rattle.std.specs.List.{list_all};
ghost use Rattle.dm_schema.specs.Kinds.{is_column, is_folded};

use crate::decode_row;
use crate::types::string_prefix;
use crate::values::fitting_value;
use dm_binlog::{ColumnMap, TableMap};
use dm_list::Sequence;
use dm_schema::{Column, DefaultRule, Kind, Names, Schema, SchemaFault};
use dm_value::{Day, Dec, Moment, Name, Stamp, Value};
use std::alloc::{AllocError, Global};
use std::fmt::Write;
use std::test::Fail;

#[test]
fn reads_integers(rt: HostRuntime) -> Result<(), Fail> {
    let alloc = rt.alloc();
    assert_eq!(rt;
        fitting_value(alloc, Kind::Signed(1), b"\xff"),
        Ok(Value::Int(-1))
    );
    assert_eq!(rt;
        fitting_value(alloc, Kind::Unsigned(1), b"\xff"),
        Ok(Value::Int(255))
    );
    assert_eq!(rt;
        fitting_value(alloc, Kind::Year, b"\x7c"),
        Ok(Value::Int(2024))
    );
    Ok(())
}

fn decimal(digits: i128) -> Value {
    Value::Dec(Dec { digits, scale: 4 })
}

#[test]
fn reads_decimals(rt: HostRuntime) -> Result<(), Fail> {
    let alloc = rt.alloc();
    let kind = Kind::Decimal(14, 4);
    let positive = fitting_value(alloc, kind, b"\x81\x0d\xfb\x38\xd2\x04\xd2");
    assert_eq!(rt; positive, Ok(decimal(12_345_678_901_234)));
    let negative = fitting_value(alloc, kind, b"\x7e\xf2\x04\xc7\x2d\xfb\x2d");
    assert_eq!(rt; negative, Ok(decimal(-12_345_678_901_234)));
    Ok(())
}

const LEAP_DAY: Day = Day {
    year: 2024,
    month: 2,
    day: 29,
};

#[test]
fn reads_a_date(rt: HostRuntime) -> Result<(), Fail> {
    let date = fitting_value(rt.alloc(), Kind::Date, b"\x5d\xd0\x0f");
    assert_eq!(rt; date, Ok(Value::Date(LEAP_DAY)));
    Ok(())
}

#[test]
fn reads_a_moment(rt: HostRuntime) -> Result<(), Fail> {
    let moment = Moment {
        day: LEAP_DAY,
        hour: 23,
        minute: 59,
        second: 58,
        micros: 123_456,
    };
    let bytes = b"\x99\xb2\xbb\x7e\xfa\x01\xe2\x40";
    let read = fitting_value(rt.alloc(), Kind::Datetime(6), bytes);
    assert_eq!(rt; read, Ok(Value::Moment(moment)));
    Ok(())
}

#[test]
fn reads_a_stamp(rt: HostRuntime) -> Result<(), Fail> {
    let stamp = Stamp {
        seconds: 0x6592_0080,
        micros: 0,
    };
    let read = fitting_value(rt.alloc(), Kind::Timestamp(0), b"\x65\x92\0\x80");
    assert_eq!(rt; read, Ok(Value::Stamp(stamp)));
    Ok(())
}

#[test]
fn a_long_char_has_a_long_prefix(rt: HostRuntime) -> Result<(), Fail> {
    let code = 254;
    assert_eq!(rt; string_prefix(ColumnMap { code, meta: 0x2cee }), 2);
    assert_eq!(rt; string_prefix(ColumnMap { code, meta: 0x50fe }), 1);
    Ok(())
}

fn name(alloc: Global, text: &str) -> Result<Name, AllocError>
    ensures { IfOk result (λ name. name ≡ text.now) }
{
    Ok(Name::new(text.as_bytes().to_vec(alloc)?))
}

fn column(alloc: Global, text: &str, kind: Kind, nullable: bool) -> Result<Column, AllocError>
    requires { IsTrue (is_folded text.now) }
    ensures { IfOk result (λ c. (c.name ≡ text.now) × (c.kind ≡ kind) × (c.default_rule ≡ DefaultRule.Nothing)) }
{
    Ok(Column {
        name: name(alloc, text)?,
        kind,
        nullable,
        default_rule: DefaultRule::Nothing,
    })
}

fn columns(alloc: Global) -> Result<Vec<Column>, AllocError>
    ensures { IfOk result (λ columns. IsTrue (list_all is_column columns.items)) }
{
    let id = column(alloc, "id", Kind::Signed(4), false)?;
    let v = column(alloc, "v", Kind::Varchar(20), true)?;
    Ok(vec![in alloc; id, v]?)
}

/// `id` INT NOT NULL PRIMARY KEY, `v` VARCHAR(20).
fn table(alloc: Global) -> Result<Result<Schema, SchemaFault>, AllocError> {
    let primary = Names::new(vec![in alloc; name(alloc, "id")?]?);
    Ok(Schema::new(columns(alloc)?, primary, Vec::new(alloc)))
}

fn table_map(alloc: Global) -> Result<TableMap, AllocError> {
    let id = ColumnMap { code: 3, meta: 0 };
    let v = ColumnMap { code: 15, meta: 80 };
    Ok(TableMap {
        id: 5,
        db: name(alloc, "s")?,
        table: name(alloc, "t")?,
        columns: Sequence::new(vec![in alloc; id, v]?),
    })
}

fn write_value(text: &mut String, value: &Value) -> Result<(), Fail> {
    match value {
        Value::Null => write!(text, "NULL ")?,
        Value::Int(number) => write!(text, "{number} ")?,
        Value::Bytes(bytes) => write!(text, "{:?} ", bytes.as_slice())?,
        _ => {}
    }
    Ok(())
}

/// The values of a row image, and how many bytes it takes.
fn row_text(alloc: Global, bytes: &[u8]) -> Result<String, Fail> {
    u32::try_from(bytes.len())?;
    let schema = table(alloc)?.map_err(|_| "no schema")?;
    let row = decode_row(alloc, bytes, &table_map(alloc)?, &schema);
    let (row, taken) = row.map_err(|_| "no row")?;
    let mut text = String::new(alloc);
    for value in row.as_slice() {
        write_value(&mut text, value)?;
    }
    write!(text, "{taken}")?;
    Ok(text)
}

#[test]
fn reads_rows(rt: HostRuntime) -> Result<(), Fail> {
    let alloc = rt.alloc();
    assert_eq!(rt;
        row_text(alloc, b"\0\x01\0\0\0\x01x")?.as_str(),
        "1 [120] 7"
    );
    assert_eq!(rt; row_text(alloc, b"\x02\x02\0\0\0")?.as_str(), "2 NULL 5");
    assert_eq!(rt;
        row_text(alloc, b"\xfc\x01\0\0\0\x01x")?.as_str(),
        "1 [120] 7"
    );
    assert_eq!(rt; row_text(alloc, b"\xfe\x02\0\0\0")?.as_str(), "2 NULL 5");
    Ok(())
}

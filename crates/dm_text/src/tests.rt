ghost use Rattle.std.specs.Prelude.{◌≡◌, not, ◌==◌, length, IsTrue, IfOk};
ghost use Rattle.std.specs.List.{list_all};
ghost use Rattle.dm_schema.specs.Kinds.{is_column, is_folded, is_key, is_kind, is_rule};

use crate::{push_column, push_create, push_kind, push_name_list, push_table_name, push_value};
use dm_list::Bytes;
use dm_schema::{Column, DefaultRule, Kind, Names, Schema, SchemaFault, TableName, UniqueKey};
use dm_value::{Day, Dec, Moment, Name, Stamp, Value};
use std::alloc::{AllocError, Global};
use std::test::Fail;

/// Adds a value and a line end.
fn push_line(
    alloc: Global,
    out: &mut Vec<u8>,
    kind: Kind,
    value: &Value,
) -> Result<(), AllocError> {
    push_value(alloc, out, kind, value)?;
    out.push(b'\n')?;
    Ok(())
}

#[test]
fn writes_whole_numbers(rt: HostRuntime) -> Result<(), Fail> {
    let alloc = rt.alloc();
    let mut out = Vec::new(alloc);
    push_line(alloc, &mut out, Kind::Signed(4), &Value::Null)?;
    let least = Value::Int(-9_223_372_036_854_775_808);
    push_line(alloc, &mut out, Kind::Signed(8), &least)?;
    let greatest = Value::Int(18_446_744_073_709_551_615);
    push_line(alloc, &mut out, Kind::Unsigned(8), &greatest)?;
    push_line(alloc, &mut out, Kind::Year, &Value::Int(2024))?;
    let want = b"NULL\n-9223372036854775808\n18446744073709551615\n2024\n";
    assert_eq!(rt; out.as_slice(), want.as_slice());
    Ok(())
}

fn push_decimal(
    alloc: Global,
    out: &mut Vec<u8>,
    digits: i128,
    scale: u8,
) -> Result<(), AllocError> {
    let value = Value::Dec(Dec { digits, scale });
    push_line(alloc, out, Kind::Decimal(38, scale), &value)
}

#[test]
fn writes_decimals(rt: HostRuntime) -> Result<(), Fail> {
    let alloc = rt.alloc();
    let mut out = Vec::new(alloc);
    push_decimal(alloc, &mut out, -5, 2)?;
    push_decimal(alloc, &mut out, -7, 0)?;
    push_decimal(alloc, &mut out, 123_456, 3)?;
    push_decimal(alloc, &mut out, 0, 1)?;
    push_decimal(alloc, &mut out, 1, 38)?;
    let want = b"-0.05\n-7\n123.456\n0.0\n0.00000000000000000000000000000000000001\n";
    assert_eq!(rt; out.as_slice(), want.as_slice());
    Ok(())
}

fn push_text(alloc: Global, out: &mut Vec<u8>, kind: Kind, bytes: &[u8]) -> Result<(), AllocError> {
    let value = Value::Bytes(Bytes::new(bytes.to_vec(alloc)?));
    push_line(alloc, out, kind, &value)
}

#[test]
fn writes_strings(rt: HostRuntime) -> Result<(), Fail> {
    let alloc = rt.alloc();
    let mut out = Vec::new(alloc);
    let bytes = b"\0\n\r\x1A'\\\"\t%`\xC3\xA9";
    push_text(alloc, &mut out, Kind::Varchar(20), bytes)?;
    push_text(alloc, &mut out, Kind::Char(3), b"")?;
    push_text(alloc, &mut out, Kind::Text(1), b"it's")?;
    let want = b"'\\0\\n\\r\\Z\\'\\\\\"\t%`\xC3\xA9'\n''\n'it\\'s'\n";
    assert_eq!(rt; out.as_slice(), want.as_slice());
    Ok(())
}

#[test]
fn writes_bytes(rt: HostRuntime) -> Result<(), Fail> {
    let alloc = rt.alloc();
    let mut out = Vec::new(alloc);
    push_text(alloc, &mut out, Kind::Binary(3), b"\0\x9F\xAB")?;
    push_text(alloc, &mut out, Kind::Varbinary(3), b"")?;
    push_text(alloc, &mut out, Kind::Blob(2), b"'A")?;
    assert_eq!(rt; out.as_slice(), b"0x009FAB\n''\n0x2741\n".as_slice());
    Ok(())
}

const LEAP_DAY: Day = Day {
    year: 2024,
    month: 2,
    day: 29,
};

#[test]
fn writes_days_and_moments(rt: HostRuntime) -> Result<(), Fail> {
    let alloc = rt.alloc();
    let mut out = Vec::new(alloc);
    push_line(alloc, &mut out, Kind::Date, &Value::Date(LEAP_DAY))?;
    let moment = Value::Moment(Moment {
        day: LEAP_DAY,
        hour: 3,
        minute: 59,
        second: 8,
        micros: 50_000,
    });
    push_line(alloc, &mut out, Kind::Datetime(6), &moment)?;
    push_line(alloc, &mut out, Kind::Datetime(0), &moment)?;
    let want = b"'2024-02-29'\n'2024-02-29 03:59:08.050000'\n'2024-02-29 03:59:08'\n";
    assert_eq!(rt; out.as_slice(), want.as_slice());
    Ok(())
}

fn push_stamp(
    alloc: Global,
    out: &mut Vec<u8>,
    digits: u8,
    seconds: u32,
    micros: u32,
) -> Result<(), AllocError> {
    let value = Value::Stamp(Stamp { seconds, micros });
    push_line(alloc, out, Kind::Timestamp(digits), &value)
}

#[test]
fn writes_stamps(rt: HostRuntime) -> Result<(), Fail> {
    let alloc = rt.alloc();
    let mut out = Vec::new(alloc);
    push_stamp(alloc, &mut out, 0, 0, 0)?;
    push_stamp(alloc, &mut out, 3, 0, 0)?;
    push_stamp(alloc, &mut out, 2, 0x6592_0080, 120_000)?;
    push_stamp(alloc, &mut out, 0, 2_147_483_647, 0)?;
    let want = b"'0000-00-00 00:00:00'\n'0000-00-00 00:00:00.000'\n'2024-01-01 00:00:00.12'\n\
        '2038-01-19 03:14:07'\n";
    assert_eq!(rt; out.as_slice(), want.as_slice());
    Ok(())
}

#[test]
fn names_each_kind(rt: HostRuntime) -> Result<(), Fail> {
    let alloc = rt.alloc();
    let mut out = Vec::new(alloc);
    for kind in [
        Kind::Signed(1),
        Kind::Signed(2),
        Kind::Signed(3),
        Kind::Signed(4),
        Kind::Unsigned(8),
        Kind::Decimal(10, 2),
        Kind::Char(3),
        Kind::Varchar(65535),
        Kind::Text(1),
        Kind::Text(2),
        Kind::Binary(16),
        Kind::Varbinary(255),
        Kind::Blob(3),
        Kind::Blob(4),
        Kind::Date,
        Kind::Year,
        Kind::Datetime(0),
        Kind::Datetime(6),
        Kind::Timestamp(3),
    ] {
        push_kind(alloc, &mut out, kind)?;
        out.push(b',')?;
    }
    let want =
        b"TINYINT,SMALLINT,MEDIUMINT,INT,BIGINT UNSIGNED,DECIMAL(10,2),CHAR(3),VARCHAR(65535),\
        TINYTEXT,TEXT,BINARY(16),VARBINARY(255),MEDIUMBLOB,LONGBLOB,DATE,YEAR,DATETIME,DATETIME(6),TIMESTAMP(3),";
    assert_eq!(rt; out.as_slice(), want.as_slice());
    Ok(())
}

fn name(alloc: Global, text: &str) -> Result<Name, AllocError>
    ensures { IfOk result (λ name. name ≡ text.now) }
{
    Ok(Name::new(text.as_bytes().to_vec(alloc)?))
}

#[test]
fn doubles_backquotes(rt: HostRuntime) -> Result<(), Fail> {
    let alloc = rt.alloc();
    let names = vec![in alloc; name(alloc, "a`b")?, name(alloc, "c")?]?;
    let mut out = Vec::new(alloc);
    push_name_list(&mut out, &names)?;
    push_name_list(&mut out, &[])?;
    assert_eq!(rt; out.as_slice(), b"(`a``b`,`c`)()".as_slice());
    Ok(())
}

/// A column that isn't nullable.
fn column(
    alloc: Global,
    text: &str,
    kind: Kind,
    default_rule: DefaultRule,
) -> Result<Column, AllocError>
    requires folded { IsTrue (is_folded text.now) }
    requires kind { IsTrue (is_kind kind) }
    requires rule { IsTrue (is_rule default_rule) }
    ensures { IfOk result (λ c. IsTrue (is_column c)) }
{
    Ok(Column {
        name: name(alloc, text)?,
        kind,
        nullable: false,
        default_rule,
    })
}

fn push_column_line(
    alloc: Global,
    out: &mut Vec<u8>,
    kind: Kind,
    nullable: bool,
    default_rule: DefaultRule,
) -> Result<(), AllocError> {
    let column = Column {
        name: name(alloc, "c")?,
        kind,
        nullable,
        default_rule,
    };
    push_column(alloc, out, &column)?;
    out.push(b'\n')?;
    Ok(())
}

#[test]
fn writes_defaults(rt: HostRuntime) -> Result<(), Fail> {
    let alloc = rt.alloc();
    let mut out = Vec::new(alloc);
    let nothing = DefaultRule::Nothing;
    push_column_line(alloc, &mut out, Kind::Signed(4), true, nothing)?;
    let constant = DefaultRule::Const(Value::Dec(Dec {
        digits: -50,
        scale: 2,
    }));
    push_column_line(alloc, &mut out, Kind::Decimal(5, 2), false, constant)?;
    let now = DefaultRule::Now;
    push_column_line(alloc, &mut out, Kind::Timestamp(0), false, now)?;
    let now = DefaultRule::Now;
    push_column_line(alloc, &mut out, Kind::Datetime(6), true, now)?;
    let want = b"`c` INT NULL\n\
        `c` DECIMAL(5,2) NOT NULL DEFAULT -0.50\n\
        `c` TIMESTAMP NOT NULL DEFAULT CURRENT_TIMESTAMP\n\
        `c` DATETIME(6) NULL DEFAULT CURRENT_TIMESTAMP(6)\n";
    assert_eq!(rt; out.as_slice(), want.as_slice());
    Ok(())
}

fn columns(alloc: Global) -> Result<Vec<Column>, AllocError>
    ensures { IfOk result (λ columns. IsTrue (list_all is_column columns.items)) }
{
    let first = column(alloc, "b", Kind::Signed(4), DefaultRule::Nothing)?;
    let default_rule = DefaultRule::Const(Value::Int(7));
    let second = column(alloc, "a", Kind::Unsigned(1), default_rule)?;
    Ok(vec![in alloc; first, second]?)
}

fn key_columns(alloc: Global) -> Result<Names, AllocError>
    ensures { IfOk result (λ names. length names ≡ 2) }
{
    Ok(Names::new(vec![in alloc; name(alloc, "a")?, name(alloc, "b")?]?))
}

fn unique(alloc: Global, text: &str, columns: Names) -> Result<UniqueKey, AllocError>
    requires folded { IsTrue (is_folded text.now) }
    requires some { IsTrue (not (length columns == 0)) }
    ensures { IfOk result (λ key. IsTrue (is_key key)) }
{
    Ok(UniqueKey {
        name: name(alloc, text)?,
        columns,
    })
}

fn uniques(alloc: Global) -> Result<Vec<UniqueKey>, AllocError>
    ensures { IfOk result (λ keys. IsTrue (list_all is_key keys.items)) }
{
    let first = unique(alloc, "l", key_columns(alloc)?)?;
    let second = unique(alloc, "k", key_columns(alloc)?)?;
    Ok(vec![in alloc; first, second]?)
}

fn table(alloc: Global) -> Result<Result<Schema, SchemaFault>, AllocError> {
    let primary = Names::new(vec![in alloc; name(alloc, "b")?]?);
    Ok(Schema::new(columns(alloc)?, primary, uniques(alloc)?))
}

fn table_name(alloc: Global) -> Result<Vec<u8>, AllocError> {
    let table = TableName {
        db: name(alloc, "shop")?,
        table: name(alloc, "t`1")?,
    };
    let mut text = Vec::new(alloc);
    push_table_name(&mut text, &table)?;
    Ok(text)
}

#[test]
fn writes_a_create(rt: HostRuntime) -> Result<(), Fail> {
    let alloc = rt.alloc();
    let schema = table(alloc)?.map_err(|_| "no schema")?;
    let mut out = Vec::new(alloc);
    push_create(alloc, &mut out, &table_name(alloc)?, &schema)?;
    let want =
        b"CREATE TABLE `shop`.`t``1` (`b` INT NOT NULL, `a` TINYINT UNSIGNED NOT NULL DEFAULT 7, \
        PRIMARY KEY (`b`), UNIQUE KEY `l` (`a`,`b`), UNIQUE KEY `k` (`a`,`b`));\n";
    assert_eq!(rt; out.as_slice(), want.as_slice());
    Ok(())
}

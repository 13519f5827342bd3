ghost use Rattle.std.specs.Prelude.{◌≡◌, ◌-◌, ◌*◌, ◌^◌, ◌≤◌, pos, IsTrue};
ghost use Rattle.std.specs.Prelude.{count_by};
ghost use Rattle.std.specs.Fmt.{is_char_start};
ghost use Rattle.std.specs.Str.{is_utf8};
ghost use Rattle.dm_schema.specs.Kinds.{is_between, is_integer_size, is_kind};
ghost use Rattle.dm_schema.specs.Fits.{fits, fits_kind, fits_signed, fits_unsigned, fits_year, fits_decimal, fits_text, ends_in_space, fits_day, fits_micros, fits_moment, fits_stamp};

use crate::{Column, Kind};
use dm_value::{Day, Dec, Moment, Stamp, Value};

/// Whether a value fits a column. NULL fits where the column is nullable.
pub fn fits(value: &Value, column: &Column) -> bool
    requires { IsTrue (is_kind column.now.kind) }
    ensures { result ≡ fits value.now column.now }
{
    match value {
        Value::Null => column.nullable,
        Value::Int(_)
        | Value::Bytes(_)
        | Value::Dec(_)
        | Value::Date(_)
        | Value::Moment(_)
        | Value::Stamp(_) => fits_kind(value, column.kind),
    }
}

/// Whether a value is one of a kind. NULL is one of none.
pub fn fits_kind(value: &Value, kind: Kind) -> bool
    requires { IsTrue (is_kind kind) }
    ensures { result ≡ fits_kind kind value.now }
{
    match (value, kind) {
        (Value::Int(number), Kind::Signed(size)) => fits_signed(*number, size),
        (Value::Int(number), Kind::Unsigned(size)) => fits_unsigned(*number, size),
        (Value::Int(number), Kind::Year) => fits_year(*number),
        (Value::Dec(dec), Kind::Decimal(precision, scale)) => fits_decimal(*dec, precision, scale),
        (Value::Bytes(bytes), Kind::Char(most)) => {
            fits_text(bytes.as_slice(), most) && !ends_in_space(bytes.as_slice())
        }
        (Value::Bytes(bytes), Kind::Varchar(most)) => fits_text(bytes.as_slice(), most),
        (Value::Bytes(bytes), Kind::Text(prefix)) => {
            is_text(bytes.as_slice()) && bytes.len() < prefixed_end(prefix)
        }
        (Value::Bytes(bytes), Kind::Binary(size)) => bytes.len() == u64::from(size),
        (Value::Bytes(bytes), Kind::Varbinary(most)) => bytes.len() <= u64::from(most),
        (Value::Bytes(bytes), Kind::Blob(prefix)) => bytes.len() < prefixed_end(prefix),
        (Value::Date(day), Kind::Date) => fits_day(*day),
        (Value::Moment(moment), Kind::Datetime(digits)) => fits_moment(*moment, digits),
        (Value::Stamp(stamp), Kind::Timestamp(digits)) => fits_stamp(*stamp, digits),
        _ => false,
    }
}

/// The first number that is too great for a signed integer of so many bytes.
fn signed_end(size: u8) -> i128
    requires { IsTrue (is_integer_size size) }
    ensures { result ≡ pos (2 ^ (8 * size - 1)) }
{
    match size {
        1 => 0x80,
        2 => 0x8000,
        3 => 0x80_0000,
        4 => 0x8000_0000,
        _ => 0x8000_0000_0000_0000,
    }
}

fn fits_signed(number: i128, size: u8) -> bool
    requires { IsTrue (is_integer_size size) }
    ensures { result ≡ fits_signed size number }
{
    let end = signed_end(size);
    -end <= number && number < end
}

/// The first number that is too great for an unsigned integer of so many bytes.
fn unsigned_end(size: u8) -> i128
    requires { IsTrue (is_integer_size size) }
    ensures { result ≡ pos (2 ^ (8 * size)) }
{
    match size {
        1 => 0x100,
        2 => 0x1_0000,
        3 => 0x100_0000,
        4 => 0x1_0000_0000,
        _ => 0x1_0000_0000_0000_0000,
    }
}

fn fits_unsigned(number: i128, size: u8) -> bool
    requires { IsTrue (is_integer_size size) }
    ensures { result ≡ fits_unsigned size number }
{
    0 <= number && number < unsigned_end(size)
}

fn fits_year(number: i128) -> bool
    ensures { result ≡ fits_year number }
{
    0 <= number && number <= 0 || 1901 <= number && number <= 2155
}

fn fits_decimal(dec: Dec, precision: u8, scale: u8) -> bool
    requires { precision ≤ 38 }
    ensures { result ≡ fits_decimal precision scale dec }
{
    dec.scale == scale && dec.digits.unsigned_abs() < digits_end(precision)
}

/// The first number that has too many digits.
fn digits_end(precision: u8) -> u128
    requires { precision ≤ 38 }
    ensures { result ≡ 10 ^ precision }
{
    10_u128.pow(u32::from(precision))
}

fn fits_text(bytes: &[u8], most: u16) -> bool
    ensures { result ≡ fits_text most bytes.now }
{
    is_text(bytes) && characters(bytes) <= usize::from(most)
}

fn is_text(bytes: &[u8]) -> bool
    ensures { result ≡ is_utf8 bytes.now }
{
    str::from_utf8(bytes).is_ok()
}

/// How many characters a text in UTF-8 has: its bytes that aren't continuation bytes.
fn characters(bytes: &[u8]) -> usize
    ensures { result ≡ count_by is_char_start bytes.now }
{
    bytes
        .iter()
        .filter(|byte| **byte < 0x80 || 0xC0 <= **byte)
        .count()
}

fn ends_in_space(bytes: &[u8]) -> bool
    ensures { result ≡ ends_in_space bytes.now }
{
    matches!(bytes.last(), Some(b' '))
}

/// The first length that is too great for a length prefix of so many bytes.
fn prefixed_end(prefix: u8) -> u64
    requires { IsTrue (is_between 1 4 prefix) }
    ensures { result ≡ 256 ^ prefix }
{
    match prefix {
        1 => 0x100,
        2 => 0x1_0000,
        3 => 0x100_0000,
        _ => 0x1_0000_0000,
    }
}

fn fits_day(day: Day) -> bool
    ensures { result ≡ fits_day day }
{
    day.year <= 9999 && day.month <= 12 && day.day <= 31
}

fn fits_moment(moment: Moment, digits: u8) -> bool
    requires { digits ≤ 6 }
    ensures { result ≡ fits_moment digits moment }
{
    fits_day(moment.day)
        && moment.hour <= 23
        && moment.minute <= 59
        && moment.second <= 59
        && fits_micros(moment.micros, digits)
}

/// How many microseconds the last digit of such a fraction counts.
fn micros_per_unit(digits: u8) -> u32
    requires { digits ≤ 6 }
    ensures unit { result ≡ 10 ^ (6 - digits) }
    ensures some { 1 ≤ result }
{
    match digits {
        0 => 1_000_000,
        1 => 100_000,
        2 => 10_000,
        3 => 1_000,
        4 => 100,
        5 => 10,
        _ => 1,
    }
}

fn fits_micros(micros: u32, digits: u8) -> bool
    requires { digits ≤ 6 }
    ensures { result ≡ fits_micros digits micros }
{
    micros <= 999_999 && micros % micros_per_unit(digits) == 0
}

fn fits_stamp(stamp: Stamp, digits: u8) -> bool
    requires { digits ≤ 6 }
    ensures { result ≡ fits_stamp digits stamp }
{
    if stamp.seconds == 0 {
        stamp.micros == 0
    } else {
        stamp.seconds <= 0x7FFF_FFFF && fits_micros(stamp.micros, digits)
    }
}

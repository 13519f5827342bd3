ghost use Rattle.std.specs.Prelude.{◌≡◌, ◌≤◌, IsTrue, Ok, IfOk, length};
ghost use Rattle.std.specs.Option.{option_map};
ghost use Rattle.dm_base.specs.Reading.{Gives};
ghost use Rattle.dm_list.specs.Answer.{Answers};
ghost use Rattle.dm_schema.specs.Kinds.{is_kind};
ghost use Rattle.dm_value.specs.declared.value.Value.TheVariants.{Bytes as BytesValue};
ghost use Rattle.dm_decode.specs.Values.{fitting_value, is_memory_flaw, padded, prefixed, unfit_flaw, value_bytes, value_of, without_blanks_at_end};
ghost use Rattle.dm_decode.specs.Widths.{HasWidth};

use crate::decimals::{decimal_of, decimal_width};
use crate::flaw::Flaw;
use crate::numbers::{le_value, signed_of};
use crate::times::{day_of, fraction_width, moment_of, stamp_of, year_of};
use crate::types::{string_prefix, varying_prefix};
use dm_base::Cursor;
use dm_binlog::ColumnMap;
use dm_list::Bytes;
use dm_schema::{Kind, fits_kind};
use dm_value::Value;
use std::alloc::{AllocError, Global};

/// Bytes behind their length, which has so many bytes.
fn prefixed<'a>(cursor: &mut Cursor<'a>, width: u8) -> Option<&'a [u8]>
    requires wide { 1 ≤ width }
    requires narrow { width ≤ 8 }
    ensures { Gives (prefixed width) cursor.old (option_map (λ p. p.now) result) cursor.new }
{
    let length = cursor.le(width)?;
    cursor.take(length)
}

/// The bytes of the next value, which is of this kind.
pub fn value_bytes<'a>(cursor: &mut Cursor<'a>, kind: Kind, map: ColumnMap) -> Option<&'a [u8]>
    requires { IsTrue (is_kind kind) }
    ensures { Gives (value_bytes kind map) cursor.old (option_map (λ p. p.now) result) cursor.new }
{
    match kind {
        Kind::Signed(size) | Kind::Unsigned(size) => cursor.take(u64::from(size)),
        Kind::Decimal(precision, scale) => cursor.take(u64::from(decimal_width(precision, scale))),
        Kind::Char(_) | Kind::Binary(_) => prefixed(cursor, string_prefix(map)),
        Kind::Varchar(_) | Kind::Varbinary(_) => prefixed(cursor, varying_prefix(map)),
        Kind::Text(prefix) | Kind::Blob(prefix) => prefixed(cursor, prefix),
        Kind::Date => cursor.take(3),
        Kind::Year => cursor.take(1),
        Kind::Datetime(digits) => cursor.take(5 + u64::from(fraction_width(digits))),
        Kind::Timestamp(digits) => cursor.take(4 + u64::from(fraction_width(digits))),
    }
}

fn without_blanks_at_end(bytes: &[u8]) -> &[u8]
    ensures { result.now ≡ without_blanks_at_end bytes.now }
{
    let mut end = bytes.len();
    while end > 0 && bytes[end - 1] == b' ' {
        end -= 1;
    }
    &bytes[..end]
}

/// The bytes, with zeros at their end up to so many.
fn padded(alloc: Global, size: u16, bytes: &[u8]) -> Result<Vec<u8>, AllocError>
    ensures { IfOk result (λ v. v.items ≡ padded size bytes.now) }
{
    let mut padded = bytes.to_vec(alloc)?;
    while padded.len() < usize::from(size) {
        padded.push(0)?;
    }
    Ok(padded)
}

fn bytes_of(alloc: Global, bytes: &[u8]) -> Result<Value, Flaw>
    ensures { Answers is_memory_flaw result (Ok (BytesValue bytes.now)) }
{
    let bytes = bytes.to_vec(alloc)?;
    Ok(Value::Bytes(Bytes::new(bytes)))
}

fn padded_of(alloc: Global, size: u16, bytes: &[u8]) -> Result<Value, Flaw>
    ensures { Answers is_memory_flaw result (Ok (BytesValue (padded size bytes.now))) }
{
    let bytes = padded(alloc, size, bytes)?;
    Ok(Value::Bytes(Bytes::new(bytes)))
}

/// The value that bytes of this kind are.
fn value_of(alloc: Global, kind: Kind, bytes: &[u8]) -> Result<Value, Flaw>
    requires kind { IsTrue (is_kind kind) }
    requires width { HasWidth kind (length bytes.now) }
    ensures { Answers is_memory_flaw result (value_of kind bytes.now) }
{
    match kind {
        Kind::Signed(size) => Ok(Value::Int(signed_of(size, le_value(bytes)))),
        Kind::Unsigned(_) => Ok(Value::Int(i128::from(le_value(bytes)))),
        Kind::Decimal(precision, scale) => match decimal_of(bytes, precision, scale) {
            None => Err(Flaw::GreatGroup),
            Some(dec) => Ok(Value::Dec(dec)),
        },
        Kind::Char(_) => bytes_of(alloc, without_blanks_at_end(bytes)),
        Kind::Varchar(_) | Kind::Text(_) => bytes_of(alloc, bytes),
        Kind::Varbinary(_) | Kind::Blob(_) => bytes_of(alloc, bytes),
        Kind::Binary(size) => padded_of(alloc, size, bytes),
        Kind::Date => Ok(Value::Date(day_of(le_value(bytes)))),
        Kind::Year => Ok(Value::Int(i128::from(year_of(le_value(bytes))))),
        Kind::Datetime(digits) => match moment_of(digits, bytes) {
            None => Err(Flaw::NoDate),
            Some(moment) => Ok(Value::Moment(moment)),
        },
        Kind::Timestamp(digits) => Ok(Value::Stamp(stamp_of(digits, bytes))),
    }
}

/// What a value that isn't one of its kind is called.
fn unfit_flaw(kind: Kind) -> Flaw
    ensures { result ≡ unfit_flaw kind }
{
    match kind {
        Kind::Date | Kind::Datetime(_) | Kind::Timestamp(_) => Flaw::NoDate,
        _ => Flaw::NotOfKind,
    }
}

/// The value that bytes of this kind are, if it is one of the kind.
pub fn fitting_value(alloc: Global, kind: Kind, bytes: &[u8]) -> Result<Value, Flaw>
    requires kind { IsTrue (is_kind kind) }
    requires width { HasWidth kind (length bytes.now) }
    ensures { Answers is_memory_flaw result (fitting_value kind bytes.now) }
{
    let value = value_of(alloc, kind, bytes)?;
    if fits_kind(&value, kind) {
        Ok(value)
    } else {
        Err(unfit_flaw(kind))
    }
}

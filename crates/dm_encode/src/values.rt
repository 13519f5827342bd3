ghost use Rattle.std.specs.Prelude.{◌≡◌, ◌++◌, IsTrue, OnOk};
ghost use Rattle.dm_schema.specs.Fits.{fits};
ghost use Rattle.dm_schema.specs.Kinds.{is_kind};
ghost use Rattle.dm_decode.specs.Types.{prefix_width};
ghost use Rattle.dm_encode.specs.Kinds.{has_map, is_mapped};
ghost use Rattle.dm_encode.specs.Values.{behind_length, prefix_of, spelled_value};

use crate::decimals::push_decimal;
use crate::integers::{twos_complement, unsigned_number, year_number};
use crate::numbers::push_le;
use crate::times::{day_number, push_moment, push_stamp};
use dm_schema::{Column, Kind};
use dm_value::Value;
use std::alloc::AllocError;

/// The bytes of a length prefix before values of at most so many bytes.
fn prefix_width(most: u16) -> u8
    ensures { result ≡ prefix_width most }
{
    if most < 256 { 1 } else { 2 }
}

/// The bytes of the length prefix of a kind; 0 where it has none.
fn prefix_of(kind: Kind) -> u8
    requires kind { IsTrue (is_kind kind) }
    requires maps { IsTrue (has_map kind) }
    ensures value { result ≡ prefix_of kind }
    ensures mapped { IsTrue (is_mapped kind) }
{
    match kind {
        Kind::Char(most) | Kind::Varchar(most) => prefix_width(4 * most),
        Kind::Binary(most) | Kind::Varbinary(most) => prefix_width(most),
        Kind::Text(prefix) | Kind::Blob(prefix) => prefix,
        _ => 0,
    }
}

/// Adds bytes behind their length.
fn push_behind_length(bytes: &mut Vec<u8>, width: u8, own: &[u8]) -> Result<(), AllocError>
    ensures { OnOk result (bytes.new.items ≡ bytes.old.items ++ behind_length width own.now) }
{
    push_le(bytes, width, own.len() as u64)?;
    bytes.extend_from_slice(own)
}

/// Adds the bytes of a value of the column. NULL has none.
pub fn push_value(bytes: &mut Vec<u8>, column: &Column, value: &Value) -> Result<(), AllocError>
    requires kind { IsTrue (is_kind column.now.kind) }
    requires maps { IsTrue (has_map column.now.kind) }
    requires fits { IsTrue (fits value.now column.now) }
    ensures value { OnOk result (bytes.new.items ≡ bytes.old.items ++ spelled_value column.now.kind value.now) }
    ensures mapped { IsTrue (is_mapped column.now.kind) }
{
    let prefix = prefix_of(column.kind);
    match (value, column.kind) {
        (Value::Int(number), Kind::Signed(size)) => {
            push_le(bytes, size, twos_complement(size, *number))
        }
        (Value::Int(number), Kind::Unsigned(size)) => {
            push_le(bytes, size, unsigned_number(size, *number))
        }
        (Value::Int(number), Kind::Year) => push_le(bytes, 1, year_number(*number)),
        (Value::Dec(dec), Kind::Decimal(precision, scale)) => {
            push_decimal(bytes, precision, scale, dec.digits)
        }
        (Value::Bytes(own), _) => push_behind_length(bytes, prefix, own.as_slice()),
        (Value::Date(day), Kind::Date) => push_le(bytes, 3, day_number(*day)),
        (Value::Moment(moment), Kind::Datetime(digits)) => push_moment(bytes, digits, *moment),
        (Value::Stamp(stamp), Kind::Timestamp(digits)) => push_stamp(bytes, digits, *stamp),
        _ => Ok(()),
    }
}

ghost use Rattle.std.specs.Prelude.{◌≡◌, ◌<◌, ◌++◌, OnOk};
ghost use Rattle.std.specs.List.{flat_map};
ghost use Rattle.std.specs.Fmt.{signed_decimal};
ghost use Rattle.dm_time.specs.Written.{day_text, moment_text, stamp_text};
ghost use Rattle.dm_text.specs.Names.{behind_comma, with_commas};
ghost use Rattle.dm_text.specs.Values.{escaped, in_quotes, string_text, hex_digit, hex_pair, binary_text, bytes_text, value_text, value_texts, tuple_text};

use crate::decimals::push_decimal;
use crate::kinds::{fraction_digits, is_binary};
use dm_schema::{Column, Kind};
use dm_time::{push_day, push_moment, push_stamp};
use dm_value::{Day, Moment, Stamp, Value};
use std::alloc::{AllocError, Global};

/// Adds the values of a row in brackets, with commas between them. Values stand in the order of the columns.
pub fn push_tuple(
    alloc: Global,
    out: &mut Vec<u8>,
    columns: &[Column],
    row: &[Value],
) -> Result<(), AllocError>
    ensures { OnOk result (out.new.items ≡ out.old.items ++ tuple_text columns.now row.now) }
{
    out.push(b'(')?;
    push_values(alloc, out, columns, row)?;
    out.push(b')')?;
    Ok(())
}

/// Adds a value of a column of the kind.
pub fn push_value(
    alloc: Global,
    out: &mut Vec<u8>,
    kind: Kind,
    value: &Value,
) -> Result<(), AllocError>
    ensures { OnOk result (out.new.items ≡ out.old.items ++ value_text kind value.now) }
{
    match value {
        Value::Null => out.extend_from_slice(b"NULL"),
        Value::Int(number) => push_integer(alloc, out, *number),
        Value::Dec(dec) => push_decimal(alloc, out, *dec),
        Value::Bytes(bytes) => push_bytes(out, is_binary(kind), bytes.as_slice()),
        Value::Date(day) => push_date(out, *day),
        Value::Moment(moment) => push_datetime(out, *moment, fraction_digits(kind)),
        Value::Stamp(stamp) => push_timestamp(out, *stamp, fraction_digits(kind)),
    }
}

/// Adds values with commas between them.
fn push_values(
    alloc: Global,
    out: &mut Vec<u8>,
    columns: &[Column],
    row: &[Value],
) -> Result<(), AllocError>
    ensures { OnOk result
        (out.new.items ≡ out.old.items ++ with_commas (value_texts columns.now row.now)) }
{
    let [column, columns @ ..] = columns else {
        return Ok(());
    };
    let [value, row @ ..] = row else {
        return Ok(());
    };
    push_value(alloc, out, column.kind, value)?;
    push_further_values(alloc, out, columns, row)
}

/// Adds values, each behind a comma.
fn push_further_values(
    alloc: Global,
    out: &mut Vec<u8>,
    columns: &[Column],
    row: &[Value],
) -> Result<(), AllocError>
    ensures { OnOk result
        (out.new.items ≡ out.old.items ++ flat_map behind_comma (value_texts columns.now row.now)) }
{
    let [column, columns @ ..] = columns else {
        return Ok(());
    };
    let [value, row @ ..] = row else {
        return Ok(());
    };
    out.push(b',')?;
    push_value(alloc, out, column.kind, value)?;
    push_further_values(alloc, out, columns, row)
}

fn push_integer(alloc: Global, out: &mut Vec<u8>, number: i128) -> Result<(), AllocError>
    ensures { OnOk result (out.new.items ≡ out.old.items ++ signed_decimal number) }
{
    let text = number.to_string(alloc)?;
    out.extend_from_slice(text.as_bytes())
}

fn push_date(out: &mut Vec<u8>, day: Day) -> Result<(), AllocError>
    ensures { OnOk result (out.new.items ≡ out.old.items ++ in_quotes (day_text day)) }
{
    out.push(b'\'')?;
    push_day(out, day)?;
    out.push(b'\'')?;
    Ok(())
}

fn push_datetime(out: &mut Vec<u8>, moment: Moment, digits: u8) -> Result<(), AllocError>
    ensures { OnOk result (out.new.items ≡ out.old.items ++ in_quotes (moment_text digits moment)) }
{
    out.push(b'\'')?;
    push_moment(out, moment, digits)?;
    out.push(b'\'')?;
    Ok(())
}

fn push_timestamp(out: &mut Vec<u8>, stamp: Stamp, digits: u8) -> Result<(), AllocError>
    ensures { OnOk result (out.new.items ≡ out.old.items ++ in_quotes (stamp_text digits stamp)) }
{
    out.push(b'\'')?;
    push_stamp(out, stamp, digits)?;
    out.push(b'\'')?;
    Ok(())
}

fn push_bytes(out: &mut Vec<u8>, binary: bool, bytes: &[u8]) -> Result<(), AllocError>
    ensures { OnOk result (out.new.items ≡ out.old.items ++ bytes_text binary bytes.now) }
{
    if binary {
        push_binary(out, bytes)
    } else {
        push_string(out, bytes)
    }
}

/// Adds a string in single quotes.
fn push_string(out: &mut Vec<u8>, bytes: &[u8]) -> Result<(), AllocError>
    ensures { OnOk result (out.new.items ≡ out.old.items ++ string_text bytes.now) }
{
    out.push(b'\'')?;
    push_all_escaped(out, bytes)?;
    out.push(b'\'')?;
    Ok(())
}

fn push_all_escaped(out: &mut Vec<u8>, bytes: &[u8]) -> Result<(), AllocError>
    ensures { OnOk result (out.new.items ≡ out.old.items ++ flat_map escaped bytes.now) }
{
    for byte in bytes {
        push_escaped(out, *byte)?;
    }
    Ok(())
}

fn push_escaped(out: &mut Vec<u8>, byte: u8) -> Result<(), AllocError>
    ensures { OnOk result (out.new.items ≡ out.old.items ++ escaped byte) }
{
    match byte {
        0 => out.extend_from_slice(b"\\0"),
        b'\n' => out.extend_from_slice(b"\\n"),
        b'\r' => out.extend_from_slice(b"\\r"),
        0x1A => out.extend_from_slice(b"\\Z"),
        b'\'' => out.extend_from_slice(b"\\'"),
        b'\\' => out.extend_from_slice(b"\\\\"),
        _ => {
            out.push(byte)?;
            Ok(())
        }
    }
}

/// Adds bytes in base 16. A `0x` with no digit behind it would be a name, so no bytes are an empty string.
fn push_binary(out: &mut Vec<u8>, bytes: &[u8]) -> Result<(), AllocError>
    ensures { OnOk result (out.new.items ≡ out.old.items ++ binary_text bytes.now) }
{
    match bytes {
        [] => out.extend_from_slice(b"''"),
        _ => {
            out.extend_from_slice(b"0x")?;
            push_hex_pairs(out, bytes)
        }
    }
}

fn push_hex_pairs(out: &mut Vec<u8>, bytes: &[u8]) -> Result<(), AllocError>
    ensures { OnOk result (out.new.items ≡ out.old.items ++ flat_map hex_pair bytes.now) }
{
    for byte in bytes {
        push_hex_pair(out, *byte)?;
    }
    Ok(())
}

fn push_hex_pair(out: &mut Vec<u8>, byte: u8) -> Result<(), AllocError>
    ensures { OnOk result (out.new.items ≡ out.old.items ++ hex_pair byte) }
{
    out.push(hex_digit(byte / 16))?;
    out.push(hex_digit(byte % 16))?;
    Ok(())
}

/// The ASCII digit of a number below 16.
fn hex_digit(number: u8) -> u8
    requires { number < 16 }
    ensures { result ≡ hex_digit number }
{
    match number {
        0..=9 => b'0' + number,
        _ => b'A' + (number - 10),
    }
}

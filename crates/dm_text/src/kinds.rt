ghost use Rattle.std.specs.Prelude.{◌≡◌, ◌++◌, OnOk};
ghost use Rattle.dm_text.specs.Kinds.{integer_text, prefix_text, in_brackets, fraction_text, kind_text, fraction_digits, is_binary};

use dm_schema::Kind;
use std::alloc::{AllocError, Global};

/// Adds the SQL type of a kind.
pub fn push_kind(alloc: Global, out: &mut Vec<u8>, kind: Kind) -> Result<(), AllocError>
    ensures { OnOk result (out.new.items ≡ out.old.items ++ kind_text kind) }
{
    match kind {
        Kind::Signed(size) => out.extend_from_slice(integer_text(size)),
        Kind::Unsigned(size) => push_both(out, integer_text(size), b" UNSIGNED"),
        Kind::Decimal(precision, scale) => push_decimal(alloc, out, precision, scale),
        Kind::Char(most) => push_sized(alloc, out, b"CHAR", most),
        Kind::Varchar(most) => push_sized(alloc, out, b"VARCHAR", most),
        Kind::Text(prefix) => push_both(out, prefix_text(prefix), b"TEXT"),
        Kind::Binary(size) => push_sized(alloc, out, b"BINARY", size),
        Kind::Varbinary(most) => push_sized(alloc, out, b"VARBINARY", most),
        Kind::Blob(prefix) => push_both(out, prefix_text(prefix), b"BLOB"),
        Kind::Date => out.extend_from_slice(b"DATE"),
        Kind::Year => out.extend_from_slice(b"YEAR"),
        Kind::Datetime(digits) => push_fractional(alloc, out, b"DATETIME", digits),
        Kind::Timestamp(digits) => push_fractional(alloc, out, b"TIMESTAMP", digits),
    }
}

/// MySQL's name of the integer type of so many bytes.
fn integer_text(size: u8) -> &'static [u8]
    ensures { result.now ≡ integer_text size }
{
    match size {
        1 => b"TINYINT",
        2 => b"SMALLINT",
        3 => b"MEDIUMINT",
        4 => b"INT",
        _ => b"BIGINT",
    }
}

/// What stands before TEXT or BLOB where the length prefix has so many bytes.
fn prefix_text(size: u8) -> &'static [u8]
    ensures { result.now ≡ prefix_text size }
{
    match size {
        1 => b"TINY",
        2 => b"",
        3 => b"MEDIUM",
        _ => b"LONG",
    }
}

fn push_both(out: &mut Vec<u8>, first: &[u8], second: &[u8]) -> Result<(), AllocError>
    ensures { OnOk result (out.new.items ≡ out.old.items ++ (first.now ++ second.now)) }
{
    out.extend_from_slice(first)?;
    out.extend_from_slice(second)
}

fn push_decimal(
    alloc: Global,
    out: &mut Vec<u8>,
    precision: u8,
    scale: u8,
) -> Result<(), AllocError>
    ensures { OnOk result
        (out.new.items ≡ out.old.items ++ kind_text (Kind.Decimal precision scale)) }
{
    let precision = precision.to_string(alloc)?;
    let scale = scale.to_string(alloc)?;
    out.extend_from_slice(b"DECIMAL(")?;
    out.extend_from_slice(precision.as_bytes())?;
    out.push(b',')?;
    out.extend_from_slice(scale.as_bytes())?;
    out.push(b')')?;
    Ok(())
}

/// Adds a type and its length in brackets.
fn push_sized(alloc: Global, out: &mut Vec<u8>, name: &[u8], length: u16) -> Result<(), AllocError>
    ensures { OnOk result (out.new.items ≡ out.old.items ++ (name.now ++ in_brackets length)) }
{
    out.extend_from_slice(name)?;
    push_in_brackets(alloc, out, length)
}

/// Adds a type and the digits of its fraction, where there are any.
fn push_fractional(
    alloc: Global,
    out: &mut Vec<u8>,
    name: &[u8],
    digits: u8,
) -> Result<(), AllocError>
    ensures { OnOk result (out.new.items ≡ out.old.items ++ (name.now ++ fraction_text digits)) }
{
    out.extend_from_slice(name)?;
    push_fraction(alloc, out, digits)
}

/// Adds a number of digits in brackets, unless it is 0.
pub fn push_fraction(alloc: Global, out: &mut Vec<u8>, digits: u8) -> Result<(), AllocError>
    ensures { OnOk result (out.new.items ≡ out.old.items ++ fraction_text digits) }
{
    if digits == 0 {
        Ok(())
    } else {
        push_in_brackets(alloc, out, u16::from(digits))
    }
}

pub fn push_in_brackets(alloc: Global, out: &mut Vec<u8>, number: u16) -> Result<(), AllocError>
    ensures { OnOk result (out.new.items ≡ out.old.items ++ in_brackets number) }
{
    let digits = number.to_string(alloc)?;
    out.push(b'(')?;
    out.extend_from_slice(digits.as_bytes())?;
    out.push(b')')?;
    Ok(())
}

/// The digits of the fraction of seconds that a kind's moments have; 0 for a kind without moments.
pub fn fraction_digits(kind: Kind) -> u8
    ensures { result ≡ fraction_digits kind }
{
    match kind {
        Kind::Datetime(digits) | Kind::Timestamp(digits) => digits,
        _ => 0,
    }
}

/// Whether a kind's bytes are no text.
pub fn is_binary(kind: Kind) -> bool
    ensures { result ≡ is_binary kind }
{
    matches!(kind, Kind::Binary(_) | Kind::Varbinary(_) | Kind::Blob(_))
}

ghost use Rattle.std.specs.Prelude.{◌≡◌, ◌≤◌, IsTrue, IfOk, Some, false, slice_range, length, map};
ghost use Rattle.std.specs.Option.{option_map};
ghost use Rattle.std.specs.Char.{to_ascii_lowercase};
ghost use Rattle.dm_value.specs.declared.value.Value.TheVariants as value;
ghost use Rattle.dm_schema.specs.declared.column.Kind.TheVariants as kind;
ghost use Rattle.dm_schema.specs.Kinds.{is_kind};
ghost use Rattle.dm_time.specs.Texts.{day_of, moment_of, stamp_of};
ghost use Rattle.dm_lex.specs.declared.token.TokenKind.TheVariants as token;
ghost use Rattle.dm_lex.specs.Literals.{is_word, integer_of, decimal_of, value_of_bytes, value_of_number, value_of_string, value_of_truth, signed, fitting, value_of_word, literal_of};

use crate::byte::has_at;
use crate::hexadecimal::{bytes_of_hex, hex_digits};
use crate::lengths::all_hex_digits;
use crate::numeral::{decimal_of, integer_of};
use crate::string::{padded, string_of, without_blanks_at_end};
use crate::{Token, TokenKind};
use dm_list::Bytes;
use dm_schema::{Kind, fits_kind};
use dm_time::{day_of_text, moment_of_text, stamp_of_text};
use dm_value::Value;
use std::alloc::{AllocError, Global};

/// The value of a literal for a column of a kind, where `minus` says whether a minus stands before it. None, where it
/// has none of that kind.
pub fn literal(
    alloc: Global,
    text: &[u8],
    token: &Token,
    minus: bool,
    kind: &Kind,
) -> Result<Option<Value>, AllocError>
    requires order { token.now.from ≤ token.now.to }
    requires within { token.now.to ≤ length text.now }
    requires kind { IsTrue (is_kind kind.now) }
    ensures { IfOk result (λ value. value ≡ literal_of kind.now minus token.now.kind (slice_range text.now token.now.from token.now.to)) }
{
    let bytes = &text[token.from as usize..token.to as usize];
    match (token.kind, minus) {
        (TokenKind::Number, _) => Ok(number_value(*kind, minus, bytes)),
        (TokenKind::Word, false) => Ok(word_value(*kind, bytes)),
        (TokenKind::Text, false) => string_value(*kind, string_of(alloc, bytes)?),
        (TokenKind::Hex, false) => hex_value(alloc, *kind, bytes),
        _ => Ok(None),
    }
}

/// The value, if it is one of the kind.
fn fitting(value: Value, kind: Kind) -> Option<Value>
    requires { IsTrue (is_kind kind) }
    ensures { result ≡ fitting kind (Some value) }
{
    if fits_kind(&value, kind) {
        Some(value)
    } else {
        None
    }
}

fn is_word(bytes: &[u8], word: &[u8]) -> bool
    requires { map to_ascii_lowercase word.now ≡ word.now }
    ensures { result ≡ is_word word.now bytes.now }
{
    bytes.eq_ignore_ascii_case(word)
}

fn word_value(kind: Kind, bytes: &[u8]) -> Option<Value>
    requires { IsTrue (is_kind kind) }
    ensures { result ≡ value_of_word kind bytes.now }
{
    if is_word(bytes, b"null") {
        Some(Value::Null)
    } else if is_word(bytes, b"true") {
        truth_value(kind, 1)
    } else if is_word(bytes, b"false") {
        truth_value(kind, 0)
    } else {
        None
    }
}

fn truth_value(kind: Kind, number: u8) -> Option<Value>
    requires { IsTrue (is_kind kind) }
    ensures { result ≡ fitting kind (value_of_truth kind number) }
{
    match kind {
        Kind::Signed(_) | Kind::Unsigned(_) | Kind::Year => {
            fitting(Value::Int(i128::from(number)), kind)
        }
        _ => None,
    }
}

/// A number as a value of a kind of numbers.
fn number_value(kind: Kind, minus: bool, bytes: &[u8]) -> Option<Value>
    requires { IsTrue (is_kind kind) }
    ensures { result ≡ fitting kind (value_of_number kind minus bytes.now) }
{
    match kind {
        Kind::Signed(_) | Kind::Unsigned(_) | Kind::Year => integer_value(kind, minus, bytes),
        Kind::Decimal(_, scale) => decimal_value(kind, scale, minus, bytes),
        _ => None,
    }
}

fn integer_value(kind: Kind, minus: bool, bytes: &[u8]) -> Option<Value>
    requires { IsTrue (is_kind kind) }
    ensures { result ≡ fitting kind (option_map value.Int (integer_of minus bytes.now)) }
{
    fitting(Value::Int(integer_of(minus, bytes)?), kind)
}

fn decimal_value(kind: Kind, scale: u8, minus: bool, bytes: &[u8]) -> Option<Value>
    requires { IsTrue (is_kind kind) }
    ensures { result ≡ fitting kind (option_map value.Dec (decimal_of scale minus bytes.now)) }
{
    fitting(Value::Dec(decimal_of(scale, minus, bytes)?), kind)
}

/// The number that a string writes; it may have a minus.
fn signed_value(kind: Kind, text: &[u8]) -> Option<Value>
    requires { IsTrue (is_kind kind) }
    ensures { result ≡ fitting kind (signed (value_of_number kind) text.now) }
{
    if has_at(text, 0, b'-') {
        number_value(kind, true, &text[1..])
    } else {
        number_value(kind, false, text)
    }
}

fn day_value(text: &[u8]) -> Option<Value>
    ensures { result ≡ fitting kind.Date (option_map value.Date (day_of text.now)) }
{
    fitting(Value::Date(day_of_text(text)?), Kind::Date)
}

fn moment_value(text: &[u8], digits: u8) -> Option<Value>
    requires { digits ≤ 6 }
    ensures { result ≡ fitting (kind.Datetime digits) (option_map value.Moment (moment_of digits text.now)) }
{
    fitting(
        Value::Moment(moment_of_text(text, digits)?),
        Kind::Datetime(digits),
    )
}

fn stamp_value(text: &[u8], digits: u8) -> Option<Value>
    requires { digits ≤ 6 }
    ensures { result ≡ fitting (kind.Timestamp digits) (option_map value.Stamp (stamp_of digits text.now)) }
{
    fitting(
        Value::Stamp(stamp_of_text(text, digits)?),
        Kind::Timestamp(digits),
    )
}

/// A string: of a number, of a time, or of bytes.
fn string_value(kind: Kind, text: Vec<u8>) -> Result<Option<Value>, AllocError>
    requires { IsTrue (is_kind kind) }
    ensures { IfOk result (λ value. value ≡ fitting kind (value_of_string kind text.items)) }
{
    match kind {
        Kind::Signed(_) | Kind::Unsigned(_) | Kind::Year | Kind::Decimal(_, _) => {
            Ok(signed_value(kind, &text))
        }
        Kind::Date => Ok(day_value(&text)),
        Kind::Datetime(digits) => Ok(moment_value(&text, digits)),
        Kind::Timestamp(digits) => Ok(stamp_value(&text, digits)),
        _ => bytes_value(kind, text),
    }
}

fn hex_value(alloc: Global, kind: Kind, bytes: &[u8]) -> Result<Option<Value>, AllocError>
    requires { IsTrue (is_kind kind) }
    ensures { IfOk result (λ value. value ≡ literal_of kind false token.Hex bytes.now) }
{
    let digits = hex_digits(bytes);
    if !all_hex_digits(digits) {
        return Ok(None);
    }
    bytes_value(kind, bytes_of_hex(alloc, digits)?)
}

/// Bytes as a value of a text kind or of a binary kind.
fn bytes_value(kind: Kind, bytes: Vec<u8>) -> Result<Option<Value>, AllocError>
    requires { IsTrue (is_kind kind) }
    ensures { IfOk result (λ value. value ≡ fitting kind (value_of_bytes kind bytes.items)) }
{
    let bytes = match kind {
        Kind::Char(_) => without_blanks_at_end(bytes),
        Kind::Binary(size) => padded(bytes, size)?,
        Kind::Varchar(_) | Kind::Text(_) | Kind::Varbinary(_) | Kind::Blob(_) => bytes,
        _ => return Ok(None),
    };
    Ok(fitting(Value::Bytes(Bytes::new(bytes)), kind))
}

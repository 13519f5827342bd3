ghost use Rattle.std.specs.Prelude.{◌≡◌, ◌≤◌, ◌+◌, ◌++◌, ◌^◌, nat_lt, unsigned_abs, fold, replicate, drop, Some, None, if◌then◌else◌, IsTrue};
ghost use Rattle.std.specs.List.{list_all};
ghost use Rattle.dm_time.specs.Texts.{with_digit, number_of};
ghost use Rattle.dm_lex.specs.Lexemes.{is_digit, digits_length};
ghost use Rattle.dm_lex.specs.Literals.{with_sign, integer_of, fraction_of, is_decimal, decimal_of};
ghost use Rattle.dm_lex.specs.Held.{held, held_decimal};

use crate::byte::is_digit;
use crate::lengths::digits_length;
use crate::string::length_before_last;
use dm_value::Dec;

/// A number with further digits behind it, if 128 bits hold it. Other bytes count as their distance from `0`, or as 0
/// below it.
fn with_digits(number: u128, digits: &[u8]) -> Option<u128>
    ensures { result ≡ (if nat_lt (fold with_digit number digits.now) (2 ^ 128) then Some (fold with_digit number digits.now) else None) }
{
    let mut longer = number;
    for digit in digits {
        longer = with_digit(longer, *digit)?;
    }
    Some(longer)
}

fn with_digit(number: u128, digit: u8) -> Option<u128>
    ensures { result ≡ (if nat_lt (with_digit number digit) (2 ^ 128) then Some (with_digit number digit) else None) }
{
    let ones = u128::from(digit.saturating_sub(b'0'));
    number.checked_mul(10)?.checked_add(ones)
}

fn with_sign(minus: bool, number: u128) -> Option<i128>
    ensures { result ≡ (if nat_lt number (2 ^ 127) then Some (with_sign minus number) else None) }
{
    let number = i128::try_from(number).ok()?;
    Some(if minus { -number } else { number })
}

/// The integer that digits alone write, one at least, if it is held.
pub fn integer_of(minus: bool, digits: &[u8]) -> Option<i128>
    ensures { result ≡ held (integer_of minus digits.now) }
{
    if digits.is_empty() || !are_digits(digits) {
        return None;
    }
    with_sign(minus, with_digits(0, digits)?)
}

fn are_digits(bytes: &[u8]) -> bool
    ensures { result ≡ list_all is_digit bytes.now }
{
    bytes.iter().all(|byte| is_digit(*byte))
}

/// The digits behind a number's point, without the zeros at their end.
fn fraction_of(bytes: &[u8]) -> &[u8]
    ensures { result.now ≡ fraction_of bytes.now }
{
    let digits = behind_point(bytes);
    &digits[..length_before_last(digits, b'0')]
}

fn behind_point(bytes: &[u8]) -> &[u8]
    ensures { result.now ≡ drop (digits_length bytes.now + 1) bytes.now }
{
    match &bytes[digits_length(bytes)..] {
        [] => &[],
        [_, digits @ ..] => digits,
    }
}

/// Whether bytes are digits, and perhaps a point with further digits; one digit at least.
fn is_decimal(bytes: &[u8]) -> bool
    ensures { result ≡ is_decimal bytes.now }
{
    match &bytes[digits_length(bytes)..] {
        [] => !bytes.is_empty(),
        [point, digits @ ..] => *point == b'.' && are_digits(digits) && 1 < bytes.len(),
    }
}

/// The number of two rows of digits and so many zeros, if 128 bits hold it.
fn joined_number(whole: &[u8], fraction: &[u8], zeros: u8) -> Option<u128>
    ensures { result
        ≡ (if nat_lt (number_of (whole.now ++ fraction.now ++ replicate zeros 48)) (2 ^ 128)
        then Some (number_of (whole.now ++ fraction.now ++ replicate zeros 48))
        else None) }
{
    let behind_point = with_digits(with_digits(0, whole)?, fraction)?;
    with_zeros(behind_point, zeros)
}

fn with_zeros(number: u128, zeros: u8) -> Option<u128>
    ensures { result
        ≡ (if nat_lt (fold with_digit number (replicate zeros 48)) (2 ^ 128)
        then Some (fold with_digit number (replicate zeros 48))
        else None) }
{
    let mut longer = number;
    for _ in 0..zeros {
        longer = with_digit(longer, b'0')?;
    }
    Some(longer)
}

/// The decimal of a number, with so many digits behind the point, if it is held. A fraction that is too long has none.
pub fn decimal_of(scale: u8, minus: bool, bytes: &[u8]) -> Option<Dec>
    ensures { result ≡ held_decimal (decimal_of scale minus bytes.now) }
{
    let fraction = fraction_of(bytes);
    if !is_decimal(bytes) || fraction.len() > usize::from(scale) {
        return None;
    }
    let zeros = scale - fraction.len() as u8;
    let whole = &bytes[..digits_length(bytes)];
    let digits = with_sign(minus, joined_number(whole, fraction, zeros)?)?;
    Some(Dec { digits, scale })
}

ghost use Rattle.std.specs.Prelude.{◌≡◌, ◌≤◌, ◌<◌, ◌+◌, ◌*◌, ◌^◌, ◌++◌, [], ◌∷◌, map, unsigned_abs, IfSome, MatchOption, OnOk};
ghost use Rattle.dm_decode.specs.Decimals.{group_width, groups};
ghost use Rattle.dm_encode.specs.Numbers.{be_bytes};
ghost use Rattle.dm_encode.specs.Decimals.{group_bytes, inverted, sign_bit, spelled_decimal};

use crate::integers::{is_negative, magnitude};
use std::alloc::AllocError;

/// The first group of some digits, and the digits behind it before and after the point.
#[derive(Clone, Copy)]
struct Group {
    digits: u8,
    whole: u8,
    fraction: u8,
}

/// The bytes of a group of so many digits.
fn group_width(digits: u8) -> u8
    ensures width { result ≡ group_width digits }
    ensures few { result ≤ 4 }
{
    match digits {
        1 | 2 => 1,
        3 | 4 => 2,
        5 | 6 => 3,
        7..=9 => 4,
        _ => 0,
    }
}

/// The first group of so many digits before the point and behind it.
fn first_group(whole: u8, fraction: u8) -> Option<Group>
    ensures groups { MatchOption result (groups whole fraction ≡ []) (λ g. groups whole fraction ≡ g.digits ∷ groups g.whole g.fraction) }
    ensures some { IfSome result (λ g. 1 ≤ g.digits) }
    ensures few { IfSome result (λ g. g.digits ≤ 9) }
    ensures parted { IfSome result (λ g. g.digits + (g.whole + g.fraction) ≡ whole + fraction) }
{
    if whole % 9 > 0 {
        let digits = whole % 9;
        let whole = whole - digits;
        return Some(Group {
            digits,
            whole,
            fraction,
        });
    }
    if whole > 0 {
        let whole = whole - 9;
        return Some(Group {
            digits: 9,
            whole,
            fraction,
        });
    }
    if fraction >= 9 {
        let fraction = fraction - 9;
        return Some(Group {
            digits: 9,
            whole,
            fraction,
        });
    }
    if fraction > 0 {
        return Some(Group {
            digits: fraction,
            whole,
            fraction: 0,
        });
    }
    None
}

fn inverted(negative: bool, byte: u8) -> u8
    ensures { result ≡ inverted negative byte }
{
    if negative { 255 - byte } else { byte }
}

/// Adds a number in so many bytes, the highest first, inverted for a negative decimal.
fn push_group(bytes: &mut Vec<u8>, width: u8, number: u64, negative: bool) -> Result<(), AllocError>
    ensures { OnOk result (bytes.new.items ≡ bytes.old.items ++ map (inverted negative) (be_bytes width number)) }
{
    if width == 0 {
        return Ok(());
    }
    push_group(bytes, width - 1, number / 256, negative)?;
    bytes.push(inverted(negative, (number % 256) as u8))?;
    Ok(())
}

/// Ten to the number of digits behind a group.
fn power_behind(group: Group) -> u128
    requires { group.whole + group.fraction ≤ 38 }
    ensures value { result ≡ 10 ^ (group.whole + group.fraction) }
    ensures some { 1 ≤ result }
{
    10_u128.pow(u32::from(group.whole + group.fraction))
}

/// Adds the groups of so many digits before the point and behind it.
fn push_groups(
    bytes: &mut Vec<u8>,
    whole: u8,
    fraction: u8,
    number: u128,
    negative: bool,
) -> Result<(), AllocError>
    requires digits { whole + fraction ≤ 38 }
    requires number { number < 10 ^ (whole + fraction) }
    ensures { OnOk result (bytes.new.items ≡ bytes.old.items ++ map (inverted negative) (group_bytes (groups whole fraction) number)) }
{
    let Some(group) = first_group(whole, fraction) else {
        return Ok(());
    };
    let power = power_behind(group);
    let width = group_width(group.digits);
    push_group(bytes, width, (number / power) as u64, negative)?;
    push_groups(bytes, group.whole, group.fraction, number % power, negative)
}

/// The highest bit of so many bytes.
fn sign_bit(width: u8) -> u64
    ensures value { result ≡ sign_bit width }
    ensures most { result ≤ 2 ^ 31 }
{
    match width {
        1 => 0x80,
        2 => 0x8000,
        3 => 0x80_0000,
        4 => 0x8000_0000,
        _ => 0,
    }
}

/// Adds a decimal of these digits: its highest bit is inverted, and for a negative one then all bits are.
pub fn push_decimal(
    bytes: &mut Vec<u8>,
    precision: u8,
    scale: u8,
    digits: i128,
) -> Result<(), AllocError>
    requires scale { scale ≤ precision }
    requires precision { precision ≤ 38 }
    requires fits { unsigned_abs digits < 10 ^ precision }
    ensures { OnOk result (bytes.new.items ≡ bytes.old.items ++ spelled_decimal precision scale digits) }
{
    let negative = is_negative(digits);
    let number = magnitude(digits);
    let Some(group) = first_group(precision - scale, scale) else {
        return Ok(());
    };
    let power = power_behind(group);
    let width = group_width(group.digits);
    let first = sign_bit(width) + (number / power) as u64;
    push_group(bytes, width, first, negative)?;
    push_groups(bytes, group.whole, group.fraction, number % power, negative)
}

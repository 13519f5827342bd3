ghost use Rattle.std.specs.Prelude.{◌≡◌, ◌≤◌, ◌<◌, ◌+◌, ◌*◌, ◌^◌, [], ◌∷◌, length, IfSome, MatchOption};
ghost use Rattle.dm_base.specs.Reading.{be_value};
ghost use Rattle.dm_decode.specs.Decimals.{decimal_of, decimal_width, digits_in, group_width, groups, groups_width, is_negative, upright_byte};
ghost use Rattle.dm_decode.specs.Upright.{upright_behind};

use dm_value::Dec;

/// The first group of some digits, and the digits behind it before and after the point.
#[derive(Clone, Copy)]
struct Group {
    digits: u8,
    whole: u8,
    fraction: u8,
}

/// How the bits of a group stand for its number.
#[derive(Clone, Copy)]
struct Sign {
    negative: bool,
    /// What the highest bit of the first byte stands for, if it is the sign's.
    bit: u8,
}

/// The bytes of a group of so many digits.
fn group_width(digits: u8) -> u8
    ensures width { result ≡ group_width digits }
    ensures few { result ≤ 4 }
{
    match digits {
        1 | 2 => 1,
        3 | 4 => 2,
        5 | 6 => 3,
        7..=9 => 4,
        _ => 0,
    }
}

/// The first group of so many digits before the point and behind it.
fn first_group(whole: u8, fraction: u8) -> Option<Group>
    ensures groups { MatchOption result (groups whole fraction ≡ []) (λ g. groups whole fraction ≡ g.digits ∷ groups g.whole g.fraction) }
    ensures some { IfSome result (λ g. 1 ≤ g.digits) }
    ensures few { IfSome result (λ g. g.digits ≤ 9) }
    ensures parted { IfSome result (λ g. g.digits + (g.whole + g.fraction) ≡ whole + fraction) }
{
    if whole % 9 > 0 {
        let digits = whole % 9;
        let whole = whole - digits;
        return Some(Group {
            digits,
            whole,
            fraction,
        });
    }
    if whole > 0 {
        let whole = whole - 9;
        return Some(Group {
            digits: 9,
            whole,
            fraction,
        });
    }
    if fraction >= 9 {
        let fraction = fraction - 9;
        return Some(Group {
            digits: 9,
            whole,
            fraction,
        });
    }
    if fraction > 0 {
        return Some(Group {
            digits: fraction,
            whole,
            fraction: 0,
        });
    }
    None
}

/// The bytes of a decimal.
pub fn decimal_width(precision: u8, scale: u8) -> u8
    requires scale { scale ≤ precision }
    requires precision { precision ≤ 38 }
    ensures { result ≡ decimal_width precision scale }
{
    let whole = precision - scale;
    group_width(whole % 9) + 4 * (whole / 9) + 4 * (scale / 9) + group_width(scale % 9)
}

fn power_of_ten(digits: u8) -> u32
    requires { digits ≤ 9 }
    ensures { result ≡ 10 ^ digits }
{
    match digits {
        0 => 1,
        1 => 10,
        2 => 100,
        3 => 1_000,
        4 => 10_000,
        5 => 100_000,
        6 => 1_000_000,
        7 => 10_000_000,
        8 => 100_000_000,
        _ => 1_000_000_000,
    }
}

fn upright_byte(negative: bool, byte: u8) -> u8
    ensures { result ≡ upright_byte negative byte }
{
    if negative { 255 - byte } else { byte }
}

/// The number of a group's bytes.
fn group_of(bytes: &[u8], sign: Sign) -> u32
    requires { length bytes.now ≤ 4 }
    ensures { result ≡ be_value (upright_behind sign.bit sign.negative bytes.now) }
{
    let upright = |byte: u8| -> u32
        ensures { result ≡ upright_byte sign.negative byte }
    { u32::from(upright_byte(sign.negative, byte)) };
    match bytes {
        [] => 0,
        [first, rest @ ..] => {
            let first = upright_byte(sign.negative, *first).saturating_sub(sign.bit);
            match rest {
                [] => u32::from(first),
                [b] => 256 * u32::from(first) + upright(*b),
                [b, c] => 256 * (256 * u32::from(first) + upright(*b)) + upright(*c),
                [b, c, d, ..] => 256 * (256 * (256 * u32::from(first) + upright(*b)) + upright(*c))
                    + upright(*d),
            }
        }
    }
}

/// The number of the groups' digits behind those before.
fn digits_in(bytes: &[u8], sign: Sign, whole: u8, fraction: u8, before: u128) -> Option<u128>
    requires wide { groups_width (groups whole fraction) ≤ length bytes.now }
    requires room { (before + 1) * 10 ^ (whole + fraction) ≤ 10 ^ 38 }
    ensures value { result ≡ digits_in (groups whole fraction) before (upright_behind sign.bit sign.negative bytes.now) }
    ensures room { IfSome result (λ n. n < 10 ^ 38) }
{
    let Some(group) = first_group(whole, fraction) else {
        return Some(before);
    };
    let (own, behind) = bytes.split_at(usize::from(group_width(group.digits)));
    let number = group_of(own, sign);
    let power = power_of_ten(group.digits);
    if number >= power {
        return None;
    }
    let sign = Sign { bit: 0, ..sign };
    let before = before * u128::from(power) + u128::from(number);
    digits_in(behind, sign, group.whole, group.fraction, before)
}

fn is_negative(bytes: &[u8]) -> bool
    ensures { result ≡ is_negative bytes.now }
{
    match bytes {
        [] => false,
        [first, ..] => *first < 128,
    }
}

/// The decimal of these bytes; `None` where a group has too great a number.
pub fn decimal_of(bytes: &[u8], precision: u8, scale: u8) -> Option<Dec>
    requires scale { scale ≤ precision }
    requires precision { precision ≤ 38 }
    requires wide { decimal_width precision scale ≤ length bytes.now }
    ensures { result ≡ decimal_of precision scale bytes.now }
{
    let negative = is_negative(bytes);
    let sign = Sign { negative, bit: 128 };
    let number = digits_in(bytes, sign, precision - scale, scale, 0)? as i128;
    let digits = if negative { -number } else { number };
    Some(Dec { digits, scale })
}

ghost use Rattle.std.specs.Prelude.{◌≡◌, ◌≤◌, ◌<◌, ◌+◌, ◌-◌, ◌^◌, length};
ghost use Rattle.dm_decode.specs.Values.{day_of, fraction_width, micros_of, moment_at, moment_of, stamp_of, year_of};

use crate::numbers::be_value;
use dm_value::{Day, Moment, Stamp};

/// By how much the five bytes of a moment are greater than its number.
const MOMENT_OFFSET: u64 = 0x80_0000_0000;

/// The bytes of a fraction of so many digits.
pub fn fraction_width(digits: u8) -> u8
    ensures { result ≡ fraction_width digits }
{
    digits.div_ceil(2)
}

/// A year of 0, or counted from 1900.
pub fn year_of(number: u64) -> u64
    requires { number < 256 }
    ensures { result ≡ year_of number }
{
    if number == 0 { 0 } else { number + 1900 }
}

pub fn day_of(number: u64) -> Day
    requires { number < 2 ^ 24 }
    ensures { result ≡ day_of number }
{
    Day {
        year: (number / 512) as u16,
        month: (number / 32 % 16) as u8,
        day: (number % 32) as u8,
    }
}

/// The microseconds that a fraction of so many digits counts.
fn unit_of(digits: u8) -> u32
    ensures { result ≡ 100 ^ (3 - fraction_width digits) }
{
    match fraction_width(digits) {
        0 => 1_000_000,
        1 => 10_000,
        2 => 100,
        _ => 1,
    }
}

fn micros_of(digits: u8, bytes: &[u8]) -> u32
    requires digits { digits ≤ 6 }
    requires width { length bytes.now ≡ fraction_width digits }
    ensures { result ≡ micros_of digits bytes.now }
{
    be_value(bytes) as u32 * unit_of(digits)
}

fn moment_at(number: u64, micros: u32) -> Moment
    requires { number < 2 ^ 39 }
    ensures { result ≡ moment_at number micros }
{
    let months = number / (1 << 22);
    let day = Day {
        year: (months / 13) as u16,
        month: (months % 13) as u8,
        day: (number / (1 << 17) % 32) as u8,
    };
    Moment {
        day,
        hour: (number / (1 << 12) % 32) as u8,
        minute: (number / (1 << 6) % 64) as u8,
        second: (number % 64) as u8,
        micros,
    }
}

/// The moment of these bytes; `None` where they are too small for one.
pub fn moment_of(digits: u8, bytes: &[u8]) -> Option<Moment>
    requires digits { digits ≤ 6 }
    requires width { length bytes.now ≡ 5 + fraction_width digits }
    ensures { result ≡ moment_of digits bytes.now }
{
    let (whole, fraction) = bytes.split_at(5);
    let number = be_value(whole);
    if number < MOMENT_OFFSET {
        return None;
    }
    let micros = micros_of(digits, fraction);
    Some(moment_at(number - MOMENT_OFFSET, micros))
}

pub fn stamp_of(digits: u8, bytes: &[u8]) -> Stamp
    requires digits { digits ≤ 6 }
    requires width { length bytes.now ≡ 4 + fraction_width digits }
    ensures { result ≡ stamp_of digits bytes.now }
{
    let (seconds, fraction) = bytes.split_at(4);
    Stamp {
        seconds: be_value(seconds) as u32,
        micros: micros_of(digits, fraction),
    }
}

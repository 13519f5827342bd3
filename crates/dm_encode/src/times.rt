ghost use Rattle.std.specs.Prelude.{◌≡◌, ◌≤◌, ◌-◌, ◌^◌, ◌++◌, OnOk};
ghost use Rattle.dm_decode.specs.Values.{fraction_width, moment_offset};
ghost use Rattle.dm_encode.specs.Numbers.{be_bytes};
ghost use Rattle.dm_encode.specs.Values.{day_number, fraction, moment_number};
ghost use Rattle.std.specs.Prelude.{◌+◌};

use crate::numbers::push_be;
use dm_value::{Day, Moment, Stamp};
use std::alloc::AllocError;

/// By how much the five bytes of a moment are greater than its number.
const MOMENT_OFFSET: u64 = 0x80_0000_0000;

pub fn day_number(day: Day) -> u64
    ensures { result ≡ day_number day }
{
    u64::from(day.day) + 32 * u64::from(day.month) + 512 * u64::from(day.year)
}

fn moment_number(moment: Moment) -> u64
    ensures { result ≡ moment_number moment }
{
    let months = 13 * u64::from(moment.day.year) + u64::from(moment.day.month);
    let days = (1 << 17) * u64::from(moment.day.day) + (1 << 22) * months;
    let minutes = (1 << 6) * u64::from(moment.minute) + (1 << 12) * u64::from(moment.hour);
    u64::from(moment.second) + minutes + days
}

fn fraction_width(digits: u8) -> u8
    ensures { result ≡ fraction_width digits }
{
    digits.div_ceil(2)
}

/// The microseconds that a fraction of so many digits counts.
fn unit_of(digits: u8) -> u32
    ensures unit { result ≡ 100 ^ (3 - fraction_width digits) }
    ensures some { 1 ≤ result }
{
    match fraction_width(digits) {
        0 => 1_000_000,
        1 => 10_000,
        2 => 100,
        _ => 1,
    }
}

/// Adds microseconds, as a fraction of so many digits.
fn push_fraction(bytes: &mut Vec<u8>, digits: u8, micros: u32) -> Result<(), AllocError>
    ensures { OnOk result (bytes.new.items ≡ bytes.old.items ++ fraction digits micros) }
{
    push_be(
        bytes,
        fraction_width(digits),
        u64::from(micros / unit_of(digits)),
    )
}

pub fn push_moment(bytes: &mut Vec<u8>, digits: u8, moment: Moment) -> Result<(), AllocError>
    ensures { OnOk result (bytes.new.items ≡ bytes.old.items ++ (be_bytes 5 (moment_offset + moment_number moment) ++ fraction digits moment.micros)) }
{
    push_be(bytes, 5, MOMENT_OFFSET + moment_number(moment))?;
    push_fraction(bytes, digits, moment.micros)
}

pub fn push_stamp(bytes: &mut Vec<u8>, digits: u8, stamp: Stamp) -> Result<(), AllocError>
    ensures { OnOk result (bytes.new.items ≡ bytes.old.items ++ (be_bytes 4 stamp.seconds ++ fraction digits stamp.micros)) }
{
    push_be(bytes, 4, u64::from(stamp.seconds))?;
    push_fraction(bytes, digits, stamp.micros)
}

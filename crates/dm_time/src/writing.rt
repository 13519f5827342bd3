ghost use Rattle.std.specs.Prelude.{◌≡◌, ◌++◌, ◌≤◌, IfOk, OnOk, IsTrue};
ghost use Rattle.dm_schema.specs.Fits.{fits_stamp};
ghost use Rattle.dm_time.specs.Texts.{IsTextOf};
ghost use Rattle.dm_time.specs.Written.{digits_of, day_text, time_text, fraction_text, moment_text, stamp_text};

use crate::stamps::moment_in_utc;
use dm_list::Bytes;
use dm_value::{Day, Moment, Stamp};
use std::alloc::{AllocError, Global};

/// The text of a TIMESTAMP in UTC, with so many digits of the fraction.
pub fn text_of_stamp(alloc: Global, stamp: &Stamp, digits: u8) -> Result<Bytes, AllocError>
    requires digits { digits ≤ 6 }
    requires fits { IsTrue (fits_stamp digits stamp.now) }
    ensures { IfOk result (IsTextOf stamp.now digits) }
{
    let mut text = Vec::new(alloc);
    push_stamp(&mut text, *stamp, digits)?;
    Ok(Bytes::new(text))
}

/// Adds the text of a TIMESTAMP in UTC, with so many digits of the fraction. Seconds 0 stand for
/// `0000-00-00 00:00:00`, whatever the microseconds.
pub fn push_stamp(text: &mut Vec<u8>, stamp: Stamp, digits: u8) -> Result<(), AllocError>
    ensures { OnOk result (text.new.items ≡ text.old.items ++ stamp_text digits stamp) }
{
    push_moment(text, moment_in_utc(stamp), digits)
}

/// Adds the text of a moment, with so many digits of the fraction.
pub fn push_moment(text: &mut Vec<u8>, moment: Moment, digits: u8) -> Result<(), AllocError>
    ensures { OnOk result (text.new.items ≡ text.old.items ++ moment_text digits moment) }
{
    push_day(text, moment.day)?;
    text.push(b' ')?;
    push_time(text, moment)?;
    push_fraction(text, moment.micros, digits)?;
    Ok(())
}

/// Adds the text of a day: four digits of the year, two of the month and two of the day.
pub fn push_day(text: &mut Vec<u8>, day: Day) -> Result<(), AllocError>
    ensures { OnOk result (text.new.items ≡ text.old.items ++ day_text day) }
{
    push_number(text, u32::from(day.year), 4)?;
    text.push(b'-')?;
    push_number(text, u32::from(day.month), 2)?;
    text.push(b'-')?;
    push_number(text, u32::from(day.day), 2)
}

fn push_time(text: &mut Vec<u8>, moment: Moment) -> Result<(), AllocError>
    ensures { OnOk result (text.new.items ≡ text.old.items ++ time_text moment) }
{
    push_number(text, u32::from(moment.hour), 2)?;
    text.push(b':')?;
    push_number(text, u32::from(moment.minute), 2)?;
    text.push(b':')?;
    push_number(text, u32::from(moment.second), 2)
}

fn push_fraction(text: &mut Vec<u8>, micros: u32, digits: u8) -> Result<(), AllocError>
    ensures { OnOk result (text.new.items ≡ text.old.items ++ fraction_text digits micros) }
{
    if digits == 0 {
        return Ok(());
    }
    text.push(b'.')?;
    let left_out = 6_u32.saturating_sub(u32::from(digits));
    push_number(text, micros / 10_u32.pow(left_out), digits)
}

/// Writes the last so many digits of a number.
fn push_number(text: &mut Vec<u8>, number: u32, digits: u8) -> Result<(), AllocError>
    ensures { OnOk result (text.new.items ≡ text.old.items ++ digits_of digits number) }
{
    if digits > 0 {
        push_number(text, number / 10, digits - 1)?;
        text.push(b'0' + (number % 10) as u8)?;
    }
    Ok(())
}

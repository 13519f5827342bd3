ghost use Rattle.std.specs.Prelude.{◌≡◌, ◌-◌, ◌≤◌, ◌++◌, IsTrue, codes, length, replicate, take};
ghost use Rattle.std.specs.List.{list_all};
ghost use Rattle.dm_schema.specs.Kinds.{is_between};
ghost use Rattle.dm_time.specs.Texts.{has_shape, day_at_front, day_of, number_of, micros_of, moment_of, stamp_of};

use crate::numbers::{are_digits, has_shape, number_of, part};
use crate::stamps::stamp_at;
use dm_value::{Day, Moment, Stamp};

/// The day that a text `YYYY-MM-DD` writes; its parts may be out of range.
pub fn day_of_text(text: &[u8]) -> Option<Day>
    ensures { result ≡ day_of text.now }
{
    if has_shape(b"0000-00-00", text) {
        Some(day_at_front(text))
    } else {
        None
    }
}

fn day_at_front(text: &[u8]) -> Day
    requires { IsTrue (has_shape (codes "0000-00-00") (take 10 text.now)) }
    ensures { result ≡ day_at_front text.now }
{
    Day {
        year: part(text, 0, 4) as u16,
        month: part(text, 5, 2) as u8,
        day: part(text, 8, 2) as u8,
    }
}

/// The moment that a text `YYYY-MM-DD hh:mm:ss` writes, with a point and at most `most` digits behind it or without.
pub fn moment_of_text(text: &[u8], most: u8) -> Option<Moment>
    requires { most ≤ 6 }
    ensures { result ≡ moment_of most text.now }
{
    let (front, fraction) = text.split_at_checked(19)?;
    if !has_shape(b"0000-00-00 00:00:00", front) {
        return None;
    }
    let micros = micros_of(fraction, most)?;
    Some(Moment {
        day: day_at_front(text),
        hour: part(text, 11, 2) as u8,
        minute: part(text, 14, 2) as u8,
        second: part(text, 17, 2) as u8,
        micros,
    })
}

/// The microseconds of a fraction with its point, or 0 without.
fn micros_of(fraction: &[u8], most: u8) -> Option<u32>
    requires { most ≤ 6 }
    ensures { result ≡ micros_of most fraction.now }
{
    let [point, digits @ ..] = fraction else {
        return Some(0);
    };
    if *point == b'.' && digits.len() <= usize::from(most) && are_digits(digits) {
        Some(filled_up(digits))
    } else {
        None
    }
}

/// The number of digits behind which zeros come, so that they are six.
fn filled_up(digits: &[u8]) -> u32
    requires all { IsTrue (list_all (is_between 48 57) digits.now) }
    requires few { length digits.now ≤ 6 }
    ensures { result ≡ number_of (digits.now ++ replicate (6 - length digits.now) 48) }
{
    number_of(digits) * 10_u32.pow(6 - digits.len() as u32)
}

/// The TIMESTAMP that the text of a moment in UTC writes.
pub fn stamp_of_text(text: &[u8], digits: u8) -> Option<Stamp>
    requires { digits ≤ 6 }
    ensures { result ≡ stamp_of digits text.now }
{
    stamp_at(moment_of_text(text, digits)?)
}

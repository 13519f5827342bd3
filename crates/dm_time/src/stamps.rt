ghost use Rattle.std.specs.Prelude.{◌≡◌, ◌&&◌, Some, if◌then◌else◌};
ghost use Rattle.dm_schema.specs.Kinds.{is_between};
ghost use Rattle.dm_time.specs.Civil.{is_civil, seconds_of, zero_moment, civil_moment, moment_in_utc};
ghost use Rattle.dm_time.specs.Texts.{is_zero_moment, is_stamp_moment, stamp_at};

use crate::days::{date_after_epoch, days_since_epoch};
use dm_value::{Day, Moment, Stamp};

const SECONDS_OF_DAY: u32 = 86_400;

/// The TIMESTAMP of a moment in UTC, where there is one.
pub fn stamp_at(moment: Moment) -> Option<Stamp>
    ensures { result ≡ stamp_at moment }
{
    if is_zero_moment(moment) {
        return Some(Stamp {
            seconds: 0,
            micros: 0,
        });
    }
    let seconds = stamp_seconds(moment)?;
    Some(Stamp {
        seconds,
        micros: moment.micros,
    })
}

fn is_zero_moment(moment: Moment) -> bool
    ensures { result ≡ is_zero_moment moment }
{
    moment.day.year == 0
        && moment.day.month == 0
        && moment.day.day == 0
        && moment.hour == 0
        && moment.minute == 0
        && moment.second == 0
        && moment.micros == 0
}

/// The seconds of a moment that a TIMESTAMP can count.
fn stamp_seconds(moment: Moment) -> Option<u32>
    ensures { result ≡ (if is_stamp_moment moment then Some (seconds_of moment) else None) }
{
    match seconds_since_epoch(moment)? {
        seconds @ 1..=0x7FFF_FFFF => Some(seconds as u32),
        _ => None,
    }
}

/// The seconds of a civil time since 1970-01-01 00:00:00, from then on.
fn seconds_since_epoch(moment: Moment) -> Option<u64>
    ensures { result ≡ (if is_civil moment && is_between 1970 9999 moment.day.year then Some (seconds_of moment) else None) }
{
    if moment.hour > 23 || moment.minute > 59 || moment.second > 59 {
        return None;
    }
    let days = days_since_epoch(moment.day)?;
    let second_of_day = 3600 * u64::from(moment.hour)
        + 60 * u64::from(moment.minute)
        + u64::from(moment.second);
    Some(u64::from(SECONDS_OF_DAY) * u64::from(days) + second_of_day)
}

/// The moment in UTC of a TIMESTAMP. Seconds 0 stand for the zero moment, whatever the microseconds.
pub fn moment_in_utc(stamp: Stamp) -> Moment
    ensures { result ≡ moment_in_utc stamp }
{
    if stamp.seconds == 0 {
        zero_moment()
    } else {
        civil_moment(stamp.seconds, stamp.micros)
    }
}

fn zero_moment() -> Moment
    ensures { result ≡ zero_moment }
{
    Moment {
        day: Day {
            year: 0,
            month: 0,
            day: 0,
        },
        hour: 0,
        minute: 0,
        second: 0,
        micros: 0,
    }
}

fn civil_moment(seconds: u32, micros: u32) -> Moment
    ensures { result ≡ civil_moment seconds micros }
{
    let second_of_day = seconds % SECONDS_OF_DAY;
    Moment {
        day: date_after_epoch(seconds / SECONDS_OF_DAY),
        hour: (second_of_day / 3600) as u8,
        minute: (second_of_day / 60 % 60) as u8,
        second: (second_of_day % 60) as u8,
        micros,
    }
}

ghost use Rattle.std.specs.Prelude.{◌≡◌, ◌-◌, ◌+◌, ◌≤◌, ◌&&◌, IsTrue, if◌then◌else◌};
ghost use Rattle.dm_schema.specs.Kinds.{is_between};
ghost use Rattle.dm_time.specs.Civil.{is_date, days_before, epoch};

use dm_value::Day;
use jiff_core::civil::Date;

/// The days from `Date::MIN` to 1970-01-01.
const DAYS_TO_EPOCH: u32 = 4_371_587;

/// The days of a date since 1970-01-01, from then on.
pub fn days_since_epoch(day: Day) -> Option<u32>
    ensures { result ≡ (if is_date day && is_between 1970 9999 day.year then Some (days_before day - days_before epoch) else None) }
{
    if day.year < 1970 || 9999 < day.year || 12 < day.month || 31 < day.day {
        return None;
    }
    match Date::new(day.year as i16, day.month as i8, day.day as i8) {
        Ok(date) => Some(date.days_since_min() - DAYS_TO_EPOCH),
        Err(_) => None,
    }
}

/// The date so many days after 1970-01-01, as far as 32 bits count its seconds.
pub fn date_after_epoch(days: u32) -> Day
    requires { days ≤ 49710 }
    ensures date { IsTrue (is_date result) }
    ensures days { days_before result ≡ days_before epoch + days }
    ensures from_1970 { 1970 ≤ result.year }
    ensures year { result.year ≤ 9999 }
{
    let date = Date::from_days_since_min(DAYS_TO_EPOCH + days);
    Day {
        year: date.year as u16,
        month: date.month,
        day: date.day,
    }
}

ghost use Rattle.std.specs.Prelude.{◌≡◌, IfOk};

use dm_list::{Bytes, Copied};
use std::alloc::{AllocError, Global};

/// A decimal number: `digits` divided by ten to the `scale`.
#[derive(Clone, Copy, Debug, PartialEq, Eq, PartialOrd, Ord)]
pub struct Dec {
    pub digits: i128,
    pub scale: u8,
}

/// A day as MySQL keeps it: each part may be 0.
#[derive(Clone, Copy, Debug, PartialEq, Eq, PartialOrd, Ord)]
pub struct Day {
    pub year: u16,
    pub month: u8,
    pub day: u8,
}

/// A day and a time of day, without a zone (DATETIME).
#[derive(Clone, Copy, Debug, PartialEq, Eq, PartialOrd, Ord)]
pub struct Moment {
    pub day: Day,
    pub hour: u8,
    pub minute: u8,
    pub second: u8,
    pub micros: u32,
}

/// A moment in seconds since 1970-01-01 00:00:00 UTC (TIMESTAMP). Seconds 0 stands for `0000-00-00 00:00:00`.
#[derive(Clone, Copy, Debug, PartialEq, Eq, PartialOrd, Ord)]
pub struct Stamp {
    pub seconds: u32,
    pub micros: u32,
}

/// A value of a column. Values are ordered by variant, then by content.
#[derive(Debug, Drop, PartialEq, Eq, PartialOrd, Ord)]
pub enum Value {
    Null,
    Int(i128),
    Bytes(Bytes),
    Dec(Dec),
    Date(Day),
    Moment(Moment),
    Stamp(Stamp),
}

impl Copied for Value {
    fn copy(&self, alloc: Global) -> Result<Value, AllocError> {
        Ok(match self {
            Value::Null => Value::Null,
            Value::Int(number) => Value::Int(*number),
            Value::Bytes(bytes) => Value::Bytes(bytes.copy(alloc)?),
            Value::Dec(dec) => Value::Dec(*dec),
            Value::Date(day) => Value::Date(*day),
            Value::Moment(moment) => Value::Moment(*moment),
            Value::Stamp(stamp) => Value::Stamp(*stamp),
        })
    }
}

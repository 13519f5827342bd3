use crate::{day_of_text, moment_of_text, stamp_of_text, text_of_stamp};
use dm_value::{Day, Moment, Stamp};
use std::test::Fail;

fn stamp(seconds: u32, micros: u32) -> Option<Stamp> {
    Some(Stamp { seconds, micros })
}

fn leap_day() -> Day {
    Day {
        year: 2024,
        month: 2,
        day: 29,
    }
}

#[test]
fn days_are_read(rt: HostRuntime) -> Result<(), Fail> {
    assert_eq!(rt; day_of_text(b"2024-02-29"), Some(leap_day()));
    assert_eq!(rt; day_of_text(b"2024-02-2"), None);
    Ok(())
}

#[test]
fn moments_are_read(rt: HostRuntime) -> Result<(), Fail> {
    let moment = Moment {
        day: leap_day(),
        hour: 23,
        minute: 59,
        second: 58,
        micros: 50_000,
    };
    assert_eq!(rt; moment_of_text(b"2024-02-29 23:59:58.05", 2), Some(moment));
    Ok(())
}

#[test]
fn stamps_are_read(rt: HostRuntime) -> Result<(), Fail> {
    assert_eq!(rt;
        stamp_of_text(b"2024-01-01 00:00:00", 0),
        stamp(0x6592_0080, 0)
    );
    assert_eq!(rt; stamp_of_text(b"0000-00-00 00:00:00.000", 3), stamp(0, 0));
    assert_eq!(rt;
        stamp_of_text(b"2038-01-19 03:14:07", 0),
        stamp(2_147_483_647, 0)
    );
    assert_eq!(rt;
        stamp_of_text(b"2024-01-01 00:00:00.", 0),
        stamp(0x6592_0080, 0)
    );
    Ok(())
}

#[test]
fn other_moments_are_no_stamps(rt: HostRuntime) -> Result<(), Fail> {
    assert_eq!(rt; stamp_of_text(b"1970-01-01 00:00:00", 0), None);
    assert_eq!(rt; stamp_of_text(b"2038-01-19 03:14:08", 0), None);
    assert_eq!(rt; stamp_of_text(b"2023-02-29 00:00:00", 0), None);
    assert_eq!(rt; stamp_of_text(b"2024-01-01 00:00:00.123", 2), None);
    Ok(())
}

#[test]
fn stamps_are_written(rt: HostRuntime) -> Result<(), Fail> {
    let stamp = Stamp {
        seconds: 0x6592_0080,
        micros: 120_000,
    };
    let text = text_of_stamp(rt.alloc(), &stamp, 2)?;
    assert_eq!(rt; text.as_slice(), b"2024-01-01 00:00:00.12".as_slice());
    Ok(())
}

#[test]
fn zero_is_written(rt: HostRuntime) -> Result<(), Fail> {
    let zero = Stamp {
        seconds: 0,
        micros: 0,
    };
    let text = text_of_stamp(rt.alloc(), &zero, 3)?;
    assert_eq!(rt; text.as_slice(), b"0000-00-00 00:00:00.000".as_slice());
    Ok(())
}

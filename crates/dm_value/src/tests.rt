use crate::{Day, Dec, Moment, Name, Row, Stamp, Value};
use dm_list::{Bytes, Copied};
use std::alloc::{AllocError, Global};
use std::cmp::Ordering;
use std::fmt::Debug;
use std::process::Abort;
use std::test::Fail;

fn copied<T: Copied>(alloc: Global, value: &T) -> Result<T, AllocError> {
    value.copy(alloc)
}

/// Each value comes before the later ones, and equals itself alone.
fn ascend<T: Ord + Debug>(rt: &impl Abort, values: &[T]) {
    for (place, left) in values.iter().enumerate() {
        for (other, right) in values.iter().enumerate() {
            assert_eq!(rt;
                left.cmp(right),
                place.cmp(&other),
                "{left:?} and {right:?}"
            );
            assert_eq!(rt; left == right, place == other);
        }
    }
}

fn text(alloc: Global, bytes: &[u8]) -> Result<Value, AllocError> {
    Ok(Value::Bytes(Bytes::new(bytes.to_vec(alloc)?)))
}

fn day(year: u16, month: u8, day: u8) -> Day {
    Day { year, month, day }
}

fn moment(day: Day, [hour, minute, second]: [u8; 3], micros: u32) -> Value {
    Value::Moment(Moment {
        day,
        hour,
        minute,
        second,
        micros,
    })
}

/// NULL, whole numbers and texts, each before the next.
fn plain_values(alloc: Global) -> Result<Vec<Value>, AllocError> {
    let mut values = Vec::new(alloc);
    values.push(Value::Null)?;
    for number in [
        -9_223_372_036_854_775_808,
        -1,
        0,
        2,
        10,
        18_446_744_073_709_551_615,
    ] {
        values.push(Value::Int(number))?;
    }
    for bytes in ["", "10", "2", "B", "a", "a\0", "ab", "\u{e9}"] {
        values.push(text(alloc, bytes.as_bytes())?)?;
    }
    Ok(values)
}

/// Values of the other variants, each before the next.
fn other_values(alloc: Global) -> Result<Vec<Value>, AllocError> {
    let mut values = Vec::new(alloc);
    for digits in [-150, -50, 99, 1000] {
        values.push(Value::Dec(Dec { digits, scale: 2 }))?;
    }
    for day in [
        day(0, 0, 0),
        day(1999, 12, 31),
        day(2000, 1, 31),
        day(2000, 2, 1),
    ] {
        values.push(Value::Date(day))?;
    }
    for (time, micros) in [
        ([0, 0, 0], 0),
        ([0, 0, 0], 1),
        ([0, 0, 1], 0),
        ([0, 1, 0], 0),
        ([1, 0, 0], 0),
    ] {
        values.push(moment(day(2000, 1, 1), time, micros))?;
    }
    values.push(moment(day(2000, 1, 2), [0, 0, 0], 0))?;
    for (seconds, micros) in [(0, 0), (1, 999_999), (2, 0)] {
        values.push(Value::Stamp(Stamp { seconds, micros }))?;
    }
    Ok(values)
}

#[test]
fn orders_values_by_variant_and_content(rt: HostRuntime) -> Result<(), Fail> {
    let mut values = plain_values(rt.alloc())?;
    values.append(&mut other_values(rt.alloc())?)?;
    assert_eq!(rt; values.len(), 32);
    ascend(&rt, &values);
    Ok(())
}

/// A row of a number and a text.
fn row(alloc: Global, number: i128, bytes: &str) -> Result<Row, AllocError> {
    let mut values = Vec::new(alloc);
    values.push(Value::Int(number))?;
    values.push(text(alloc, bytes.as_bytes())?)?;
    Ok(Row::new(values))
}

#[test]
fn orders_rows_by_the_first_that_differs(rt: HostRuntime) -> Result<(), Fail> {
    let alloc = rt.alloc();
    let mut rows = Vec::new(alloc);
    rows.push(Row::new(Vec::new(alloc)))?;
    rows.push(Row::new(vec![in alloc; Value::Null]?))?;
    rows.push(Row::new(vec![in alloc; Value::Int(1)]?))?;
    for (number, bytes) in [(1, "b"), (1, "ba"), (1, "c"), (2, "a")] {
        rows.push(row(alloc, number, bytes)?)?;
    }
    ascend(&rt, &rows);
    Ok(())
}

#[test]
fn copies_each_variant(rt: HostRuntime) -> Result<(), Fail> {
    let alloc = rt.alloc();
    let row = Row::new(plain_values(alloc)?);
    assert!(rt; copied(alloc, &row)? == row);
    let row = Row::new(other_values(alloc)?);
    assert!(rt; copied(alloc, &row)? == row);
    Ok(())
}

#[test]
fn reads_a_name(rt: HostRuntime) -> Result<(), Fail> {
    let alloc = rt.alloc();
    let name = Name::new("na\u{ef}f".as_bytes().to_vec(alloc)?);
    assert_eq!(rt; name.as_slice(), b"na\xC3\xAFf".as_slice());
    assert_eq!(rt; name.len(), 5);
    for (place, want) in [(0, Some(b'n')), (2, Some(0xC3)), (4, Some(b'f')), (5, None)] {
        assert_eq!(rt; name.get(place).copied(), want, "at {place}");
    }
    assert_eq!(rt; copied(alloc, &name)?, name);
    for (left, right, want) in [
        ("id", "id", Ordering::Equal),
        ("id", "id2", Ordering::Less),
        ("a_b", "aab", Ordering::Less),
        ("v10", "v9", Ordering::Less),
        ("\u{e9}", "z", Ordering::Greater),
    ] {
        let left = Name::new(left.as_bytes().to_vec(alloc)?);
        let right = Name::new(right.as_bytes().to_vec(alloc)?);
        assert_eq!(rt; left.cmp(&right), want, "{left:?} and {right:?}");
        assert_eq!(rt; left == right, want == Ordering::Equal);
    }
    Ok(())
}

use crate::{
    ColumnMap, Events, RowsHead, WRITE_ROWS, read_events, read_query, read_rows_head,
    read_table_map,
};
use std::alloc::{AllocError, Global};
use std::fmt::Write;
use std::test::Fail;

#[test]
fn reads_a_table_map(rt: HostRuntime) -> Result<(), Fail> {
    let body = b"\x05\0\0\0\0\0\x01\0\x01s\0\x01t\0\x02\x03\x0f\x02\x50\0\x02";
    let map = read_table_map(rt.alloc(), body)?.ok_or("no map")?;
    assert_eq!(rt; map.id, 5);
    assert_eq!(rt; map.db.as_slice(), b"s".as_slice());
    assert_eq!(rt; map.table.as_slice(), b"t".as_slice());
    let int = ColumnMap { code: 3, meta: 0 };
    let varchar = ColumnMap { code: 15, meta: 80 };
    assert_eq!(rt; map.columns.as_slice(), [int, varchar].as_slice());
    Ok(())
}

#[test]
fn reads_a_rows_head(rt: HostRuntime) -> Result<(), Fail> {
    let expected = Some(RowsHead {
        id: 5,
        count: 2,
        full: true,
        rows: 12,
    });
    let body = b"\x05\0\0\0\0\0\x01\0\x02\0\x02\x03\0\x01\0\0\0\x01x\x02\x02\0\0\0";
    assert_eq!(rt; read_rows_head(WRITE_ROWS, body), expected);
    let longer = b"\x05\0\0\0\0\0\x01\0\x02\0\x02\xff\0\x01\0\0\0\x01x\x02\x02\0\0\0";
    assert_eq!(rt; read_rows_head(WRITE_ROWS, longer), expected);
    Ok(())
}

#[test]
fn reads_a_query(rt: HostRuntime) -> Result<(), Fail> {
    let body = b"\x09\0\0\0\0\0\0\0\x01\0\0\x03\0\xaa\xbb\xccs\0BEGIN";
    let query = read_query(body).ok_or("no query")?;
    assert_eq!(rt; query.db, b"s".as_slice());
    assert_eq!(rt; query.statement, b"BEGIN".as_slice());
    Ok(())
}

/// A format event; the first byte that isn't 0 is its type.
fn format_event(kind: u8, algorithm: u8) -> [u8; 119] {
    let mut event = [0; 119];
    event[4] = kind;
    event[9] = 119;
    let body = &mut event[19..];
    body[0] = 4;
    body[56] = 19;
    body[58] = 13;
    body[75] = 8;
    body[79..82].copy_from_slice(&[8, 8, 8]);
    body[86..89].copy_from_slice(&[10, 10, 10]);
    body[95] = algorithm;
    event
}

/// A file with a format event, an event of 21 bytes at 123, and one of 19 at 144.
fn file_of(alloc: Global, format: &[u8]) -> Result<Vec<u8>, AllocError> {
    let mut file = b"\xfebin".to_vec(alloc)?;
    file.extend_from_slice(format)?;
    file.extend_from_slice(b"\0\0\0\0\x10\0\0\0\0\x15\0\0\0\0\0\0\0\0\0ab")?;
    file.extend_from_slice(b"\0\0\0\0\x03\0\0\0\0\x13\0\0\0\0\0\0\0\0\0")?;
    Ok(file)
}

/// Types, places and ends of events, and then the fault.
fn text_of(alloc: Global, events: &Events) -> Result<String, Fail> {
    let mut text = String::new(alloc);
    for event in events.list.as_slice() {
        write!(text, "{} {}-{}; ", event.kind, event.at, event.end)?;
    }
    match events.fault {
        None => {}
        Some(fault) => write!(text, "{:?} {}", fault.cause, fault.at)?,
    }
    Ok(text)
}

/// What is read of so many of a file's first bytes.
fn read(alloc: Global, file: &[u8], cut: usize, start: u32, last: bool) -> Result<String, Fail> {
    let front = file.get(..cut).ok_or("too few bytes")?;
    u32::try_from(front.len())?;
    text_of(alloc, &read_events(alloc, front, start, last)?)
}

const WHOLE: &str = "15 4-123; 16 123-144; 3 144-163; ";

#[test]
fn reads_events(rt: HostRuntime) -> Result<(), Fail> {
    let alloc = rt.alloc();
    let file = file_of(alloc, &format_event(15, 0))?;
    assert_eq!(rt; file.len(), 163);
    assert_eq!(rt; read(alloc, &file, 163, 4, false)?.as_str(), WHOLE);
    assert_eq!(rt; read(alloc, &file, 163, 123, false)?.as_str(), WHOLE);
    let behind = read(alloc, &file, 163, 144, false)?;
    assert_eq!(rt; behind.as_str(), "15 4-123; 3 144-163; ");
    let inside = read(alloc, &file, 163, 130, false)?;
    assert_eq!(rt; inside.as_str(), "15 4-123; Start 130");
    Ok(())
}

#[test]
fn refuses_other_formats(rt: HostRuntime) -> Result<(), Fail> {
    let alloc = rt.alloc();
    let summed = file_of(alloc, &format_event(15, 1))?;
    assert_eq!(rt; read(alloc, &summed, 163, 4, false)?.as_str(), "Checksum 4");
    let other = file_of(alloc, &format_event(16, 0))?;
    assert_eq!(rt; read(alloc, &other, 163, 4, false)?.as_str(), "NoFormat 4");
    Ok(())
}

/// The text of a file that is cut off: the events that end within it, and of one that isn't the last where the torn
/// event begins.
fn expected_of(cut: usize, last: bool) -> &'static str {
    match (cut, last) {
        (0..4, false) => "Magic 0",
        (0..5, _) | (5..123, true) => "",
        (5..123, false) => "Size 4",
        (123, _) | (124..144, true) => "15 4-123; ",
        (124..144, false) => "15 4-123; Size 123",
        (144, _) | (145..163, true) => "15 4-123; 16 123-144; ",
        (145..163, false) => "15 4-123; 16 123-144; Size 144",
        _ => WHOLE,
    }
}

#[test]
fn reads_a_file_that_is_cut(rt: HostRuntime) -> Result<(), Fail> {
    let alloc = rt.alloc();
    let file = file_of(alloc, &format_event(15, 0))?;
    for cut in 0..164 {
        for last in [false, true] {
            let text = read(alloc, &file, cut, 4, last)?;
            assert_eq!(rt; text.as_str(), expected_of(cut, last), "at {cut}, {last}");
        }
    }
    Ok(())
}

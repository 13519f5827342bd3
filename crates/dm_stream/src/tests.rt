use crate::{LogFault, LogFile, Logged, Said, Stream};
use std::alloc::{AllocError, Global};
use std::fmt::Write;
use std::test::Fail;

const TABLE_MAP: &[u8] = b"\x05\0\0\0\0\0\x01\0\x01s\0\x01t\0\x01\x03\0\x01";

const ROWS: &[u8] = b"\x05\0\0\0\0\0\x01\0\x02\0\x01\x01\0\x07\0\0\0";

const ALTER: &[u8] = b"\x09\0\0\0\0\0\0\0\x01\0\0\0\0s\0ALTER TABLE t ADD c INT";

const INSERT: &[u8] = b"\x09\0\0\0\0\0\0\0\x01\0\0\0\0s\0INSERT INTO t VALUES (1)";

/// The log goes on in the next file, from 4 on.
const ROTATE: &[u8] = b"\x04\0\0\0\0\0\0\0b.2";

const OPEN_STRING: &[u8] = b"\x09\0\0\0\0\0\0\0\x01\0\0\0\0s\0INSERT INTO t VALUES ('x)";

const NO_ON: &[u8] = b"\x09\0\0\0\0\0\0\0\x01\0\0\0\0s\0DROP INDEX k t";

/// The first four bytes of a file and its format event; what isn't read of it is 0.
fn begin(alloc: Global) -> Result<Vec<u8>, AllocError> {
    let mut file = [0; 123];
    file[..4].copy_from_slice(b"\xfebin");
    file[8] = 15;
    file[13] = 119;
    let body = &mut file[23..];
    body[0] = 4;
    body[56] = 19;
    body[58] = 13;
    body[75] = 8;
    body[79..82].copy_from_slice(&[8, 8, 8]);
    body[86..89].copy_from_slice(&[10, 10, 10]);
    file.to_vec(alloc)
}

/// The same with another byte at a place.
fn begin_with(alloc: Global, place: usize, byte: u8) -> Result<Vec<u8>, AllocError> {
    let mut file = begin(alloc)?;
    if let Some(old) = file.get_mut(place) {
        *old = byte;
    }
    Ok(file)
}

fn push_event(file: &mut Vec<u8>, kind: u8, body: &[u8]) -> Result<(), Fail> {
    let mut header = [0; 19];
    header[4] = kind;
    header[9] = u8::try_from(body.len())?
        .checked_add(19)
        .ok_or("a long body")?;
    file.extend_from_slice(&header)?;
    file.extend_from_slice(body)?;
    Ok(())
}

/// A table map at 123, rows of it at 160, and a statement from 196 to 253.
fn first_file(alloc: Global) -> Result<Vec<u8>, Fail> {
    let mut file = begin(alloc)?;
    push_event(&mut file, 19, TABLE_MAP)?;
    push_event(&mut file, 30, ROWS)?;
    push_event(&mut file, 2, ALTER)?;
    Ok(file)
}

/// The same rows at 123, and then a row statement and events of which no history goes on.
fn second_file(alloc: Global) -> Result<Vec<u8>, Fail> {
    let mut file = begin(alloc)?;
    push_event(&mut file, 30, ROWS)?;
    push_event(&mut file, 2, INSERT)?;
    push_event(&mut file, 39, b"")?;
    push_event(&mut file, 40, b"")?;
    push_event(&mut file, 19, b"\x05\0")?;
    push_event(&mut file, 16, b"12345678")?;
    Ok(file)
}

fn write_said(text: &mut String, logged: &Logged<'_>) -> Result<(), Fail> {
    write!(text, "{} {} ", logged.file.number, logged.event.at)?;
    match &logged.said {
        Said::Nothing => write!(text, "nothing\n")?,
        Said::Ends(cause) => write!(text, "{cause:?}\n")?,
        Said::Rows { map_event, .. } => write!(text, "rows of {}\n", map_event.at)?,
        Said::Statement {
            text: statement,
            ..
        } => write!(text, "statement of {}\n", statement.len())?,
    }
    Ok(())
}

fn write_fault(text: &mut String, fault: Option<LogFault>) -> Result<(), Fail> {
    if let Some(fault) = fault {
        write!(
            text,
            "{} {} fault {:?}\n",
            fault.file, fault.at, fault.cause
        )?;
    }
    Ok(())
}

/// A line for each event of two files, and one for the fault.
fn read(alloc: Global, first: &[u8], second: &[u8], start: u32) -> Result<String, Fail> {
    u32::try_from(first.len())?;
    u32::try_from(second.len())?;
    let files = [
        LogFile {
            number: 7,
            bytes: first,
        },
        LogFile {
            number: 8,
            bytes: second,
        },
    ];
    let mut text = String::new(alloc);
    let mut stream = Stream::new(alloc, &files, start)?;
    while let Some(logged) = stream.next_event()? {
        write_said(&mut text, &logged)?;
    }
    write_fault(&mut text, stream.fault())?;
    Ok(text)
}

const SECOND: &str = "8 4 nothing
8 123 NoMap
8 159 RowStatement
8 217 PartialUpdate
8 236 Payload
8 255 Body
8 276 nothing
";

#[test]
fn reads_two_files(rt: HostRuntime) -> Result<(), Fail> {
    let alloc = rt.alloc();
    let text = read(alloc, &first_file(alloc)?, &second_file(alloc)?, 4)?;
    let first = "7 4 nothing\n7 123 nothing\n7 160 rows of 123\n7 196 statement of 23\n";
    assert_eq!(rt; text.strip_prefix(first), Some(SECOND));
    Ok(())
}

#[test]
fn passes_over_a_table_map(rt: HostRuntime) -> Result<(), Fail> {
    let alloc = rt.alloc();
    let text = read(alloc, &first_file(alloc)?, &second_file(alloc)?, 160)?;
    let first = "7 4 nothing\n7 160 NoMap\n7 196 statement of 23\n";
    assert_eq!(rt; text.strip_prefix(first), Some(SECOND));
    Ok(())
}

#[test]
fn ends_at_a_fault(rt: HostRuntime) -> Result<(), Fail> {
    let alloc = rt.alloc();
    let mut torn = first_file(alloc)?;
    torn.truncate(252);
    let text = read(alloc, &torn, &second_file(alloc)?, 4)?;
    let all = "7 4 nothing\n7 123 nothing\n7 160 rows of 123\n7 196 fault Size\n";
    assert_eq!(rt; text.as_str(), all);
    Ok(())
}

/// What is read where the first file is this one.
fn read_first(alloc: Global, first: &[u8], start: u32) -> Result<String, Fail> {
    read(alloc, first, &begin(alloc)?, start)
}

/// The first four bytes end in `m`; the event at 4 has type 16, which stands at 8; its body, from 23 on, says version 3.
#[test]
fn ends_at_another_format(rt: HostRuntime) -> Result<(), Fail> {
    let alloc = rt.alloc();
    let magic = read_first(alloc, &begin_with(alloc, 3, b'm')?, 4)?;
    assert_eq!(rt; magic.as_str(), "7 0 fault Magic\n");
    let kind = read_first(alloc, &begin_with(alloc, 8, 16)?, 4)?;
    assert_eq!(rt; kind.as_str(), "7 4 fault NoFormat\n");
    let version = read_first(alloc, &begin_with(alloc, 23, 3)?, 4)?;
    assert_eq!(rt; version.as_str(), "7 4 fault Format\n");
    Ok(())
}

/// No event ends at 161: the table map's is 123 + 19 + 18 = 160.
#[test]
fn ends_at_a_start_within_an_event(rt: HostRuntime) -> Result<(), Fail> {
    let alloc = rt.alloc();
    let text = read_first(alloc, &first_file(alloc)?, 161)?;
    assert_eq!(rt; text.as_str(), "7 4 nothing\n7 161 fault Start\n");
    Ok(())
}

/// A rotate event from 123 to 123 + 19 + 11 = 153, and a statement behind it.
fn rotated(alloc: Global) -> Result<Vec<u8>, Fail> {
    let mut file = begin(alloc)?;
    push_event(&mut file, 4, ROTATE)?;
    push_event(&mut file, 2, ALTER)?;
    Ok(file)
}

const ROTATED: &str = "7 4 nothing
7 123 nothing
7 153 statement of 23
8 4 nothing
8 123 nothing
8 160 rows of 123
";

/// The last file is written on: its statement from 196 to 253 isn't whole, which is no fault.
#[test]
fn goes_on_to_an_open_tail(rt: HostRuntime) -> Result<(), Fail> {
    let alloc = rt.alloc();
    let mut open = first_file(alloc)?;
    open.truncate(252);
    let text = read(alloc, &rotated(alloc)?, &open, 4)?;
    assert_eq!(rt; text.as_str(), ROTATED);
    Ok(())
}

/// Statements at 123 and at 123 + 19 + 15 + 25 = 182.
fn unreadable(alloc: Global) -> Result<Vec<u8>, Fail> {
    let mut file = begin(alloc)?;
    push_event(&mut file, 2, OPEN_STRING)?;
    push_event(&mut file, 2, NO_ON)?;
    Ok(file)
}

#[test]
fn ends_at_heads_that_cannot_be_read(rt: HostRuntime) -> Result<(), Fail> {
    let alloc = rt.alloc();
    let text = read_first(alloc, &unreadable(alloc)?, 4)?;
    let first = "7 4 nothing\n7 123 Lex\n7 182 Syntax\n8 4 nothing\n";
    assert_eq!(rt; text.as_str(), first);
    Ok(())
}

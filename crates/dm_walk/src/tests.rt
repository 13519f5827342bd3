mod effects;
mod filters;
mod images;

use crate::{Item, Place, Track, begun, walk};
use dm_ddl::{Statement, read_statement};
use dm_list::Sequence;
use dm_route::Rules;
use dm_schema::TableName;
use dm_stream::LogFile;
use dm_value::Name;
use std::alloc::{AllocError, Global};
use std::fmt::Write;
use std::test::Fail;

/// Table id 5 stands for `s`.`t` with INT NOT NULL and VARCHAR(20) NULL.
const TABLE_MAP: &[u8] = b"\x05\0\0\0\0\0\x01\0\x01s\0\x01t\0\x02\x03\x0f\x02\x50\0\x02";

/// The rows (1,'x') and (2,NULL).
const ROWS: &[u8] = b"\x05\0\0\0\0\0\x01\0\x02\0\x02\x03\0\x01\0\0\0\x01x\x02\x02\0\0\0";

const ALTER: &[u8] = b"\x09\0\0\0\0\0\0\0\x01\0\0\0\0s\0ALTER TABLE t ADD d INT";

const DROP: &[u8] = b"\x09\0\0\0\0\0\0\0\x01\0\0\0\0s\0DROP TABLE t";

/// The first four bytes of a file and its format event; what isn't read of it is 0.
fn begin(alloc: Global) -> Result<Vec<u8>, AllocError> {
    let mut file = [0; 123];
    file[..4].copy_from_slice(b"\xfebin");
    file[8] = 15;
    file[13] = 119;
    let body = &mut file[23..];
    body[0] = 4;
    body[56] = 19;
    body[58] = 13;
    body[75] = 8;
    body[79..82].copy_from_slice(&[8, 8, 8]);
    body[86..89].copy_from_slice(&[10, 10, 10]);
    file.to_vec(alloc)
}

fn push_event(file: &mut Vec<u8>, kind: u8, body: &[u8]) -> Result<(), Fail> {
    let mut header = [0; 19];
    header[4] = kind;
    header[9] = u8::try_from(body.len())?
        .checked_add(19)
        .ok_or("a long body")?;
    file.extend_from_slice(&header)?;
    file.extend_from_slice(body)?;
    Ok(())
}

/// A table map at 123, its rows at 163 with images at 194 and 201, an ALTER at 206 and a DROP at 263.
fn file_of(alloc: Global) -> Result<Vec<u8>, Fail> {
    let mut file = begin(alloc)?;
    push_event(&mut file, 19, TABLE_MAP)?;
    push_event(&mut file, 30, ROWS)?;
    push_event(&mut file, 2, ALTER)?;
    push_event(&mut file, 2, DROP)?;
    Ok(file)
}

const CREATE: &str = "CREATE TABLE t (id INT NOT NULL PRIMARY KEY, v VARCHAR(20))";

/// A table of `s` without rows, which was created so.
fn track_of(alloc: Global, create: &str, table: &[u8]) -> Result<Track, Fail> {
    let text = create.as_bytes();
    u32::try_from(text.len())?;
    let Ok(Statement::Create { schema, .. }) = read_statement(alloc, text) else {
        return Err("no schema".into());
    };
    let own = TableName {
        db: Name::new(b"s".to_vec(alloc)?),
        table: Name::new(table.to_vec(alloc)?),
    };
    Ok(begun(alloc, own, schema, &[])?)
}

fn no_rules(alloc: Global) -> Rules {
    Rules {
        allow: Sequence::new(Vec::new(alloc)),
        routes: Sequence::new(Vec::new(alloc)),
        filters: Sequence::new(Vec::new(alloc)),
    }
}

fn write_place(text: &mut String, place: &Place) -> Result<(), Fail> {
    write!(
        text,
        "{:?} {} of {} by {}; ",
        place.kind, place.at, place.event, place.map
    )?;
    Ok(())
}

/// The items of a history, how many schemas it has behind the first, and why it ends.
fn write_track(text: &mut String, track: &Track) -> Result<(), Fail> {
    for item in track.items.as_slice() {
        match item {
            Item::Row(place) | Item::Ddl(place) => write_place(text, place)?,
        }
    }
    write!(text, "{} more", track.later.len())?;
    if let Some(fault) = track.fault {
        write!(text, ", {:?} at {}", fault.cause, fault.at)?;
    }
    Ok(())
}

/// What a walk over a file gives for some tables, a line each.
fn write_walked(
    alloc: Global,
    text: &mut String,
    rules: &Rules,
    tracks: Vec<Track>,
    file: &[u8],
) -> Result<(), Fail> {
    u32::try_from(file.len())?;
    let files = [LogFile {
        number: 0,
        bytes: file,
    }];
    let mut between = "";
    for track in &walk(alloc, rules, tracks, &files, 4)? {
        text.push_str(between)?;
        write_track(text, track)?;
        between = "\n";
    }
    Ok(())
}

/// The same for `s`.`t` alone, which was created so.
fn write_one(
    alloc: Global,
    text: &mut String,
    rules: &Rules,
    create: &str,
    file: &[u8],
) -> Result<(), Fail> {
    let mut tracks = Vec::new(alloc);
    tracks.push(track_of(alloc, create, b"t")?)?;
    write_walked(alloc, text, rules, tracks, file)
}

/// A QUERY_EVENT of a statement that was written in `s`.
fn push_statement(alloc: Global, file: &mut Vec<u8>, statement: &str) -> Result<(), Fail> {
    let mut body = b"\x09\0\0\0\0\0\0\0\x01\0\0\0\0s\0".to_vec(alloc)?;
    body.extend_from_slice(statement.as_bytes())?;
    push_event(file, 2, &body)
}

/// The statement that a line of a table gives.
fn statement_in(line: &str) -> &str {
    match line.split_once(" => ") {
        Some((statement, _)) => statement,
        None => line,
    }
}

/// What a walk over the file gives for `s`.`t` and `s`.`u`.
fn walked(alloc: Global) -> Result<String, Fail> {
    let mut tracks = Vec::new(alloc);
    tracks.push(track_of(alloc, CREATE, b"t")?)?;
    tracks.push(track_of(alloc, CREATE, b"u")?)?;
    let mut text = String::new(alloc);
    write_walked(alloc, &mut text, &no_rules(alloc), tracks, &file_of(alloc)?)?;
    Ok(text)
}

const WALKED: &str =
    "Write 194 of 163 by 123; Write 201 of 163 by 123; Statement 206 of 206 by 0; 1 more, Unsupported at 263
0 more";

#[test]
fn walks_over_rows_and_statements(rt: HostRuntime) -> Result<(), Fail> {
    assert_eq!(rt; walked(rt.alloc())?.as_str(), WALKED);
    Ok(())
}

mod shown;
mod tables;

use shown::{push_read, push_read_head};
use std::alloc::{AllocError, Global};
use tables::{CHANGES, COLUMNS, HEADS, PRINTED, PRINTED_SCHEMAS, TABLES};

/// The statement that a line of a table gives.
fn statement_in(line: &str) -> &str {
    match line.split_once(" => ") {
        Some((statement, _)) => statement,
        None => line,
    }
}

/// A line of a table, from its statement.
fn push_line(alloc: Global, out: &mut Vec<u8>, statement: &str) -> Result<(), AllocError> {
    out.extend_from_slice(statement.as_bytes())?;
    out.extend_from_slice(b" => ")?;
    push_read(alloc, out, statement.as_bytes())?;
    out.push(b'\n')?;
    Ok(())
}

/// The table that the lines' statements give.
fn table_of(alloc: Global, lines: &str) -> Result<Vec<u8>, AllocError> {
    let mut out = Vec::new(alloc);
    for line in lines.lines() {
        push_line(alloc, &mut out, statement_in(line))?;
    }
    Ok(out)
}

fn push_head_line(alloc: Global, out: &mut Vec<u8>, statement: &str) -> Result<(), AllocError> {
    out.extend_from_slice(statement.as_bytes())?;
    out.extend_from_slice(b" => ")?;
    push_read_head(alloc, out, statement.as_bytes())?;
    out.push(b'\n')?;
    Ok(())
}

/// The table that the heads of the lines' statements give.
fn heads_of(alloc: Global, lines: &str) -> Result<Vec<u8>, AllocError> {
    let mut out = Vec::new(alloc);
    for line in lines.lines() {
        push_head_line(alloc, &mut out, statement_in(line))?;
    }
    Ok(out)
}

#[test]
fn reads_columns(rt: HostRuntime) -> Result<(), AllocError> {
    let found = table_of(rt.alloc(), COLUMNS)?;
    assert_eq!(rt; found.as_slice(), COLUMNS.as_bytes());
    Ok(())
}

#[test]
fn reads_tables(rt: HostRuntime) -> Result<(), AllocError> {
    let found = table_of(rt.alloc(), TABLES)?;
    assert_eq!(rt; found.as_slice(), TABLES.as_bytes());
    Ok(())
}

#[test]
fn reads_changes(rt: HostRuntime) -> Result<(), AllocError> {
    let found = table_of(rt.alloc(), CHANGES)?;
    assert_eq!(rt; found.as_slice(), CHANGES.as_bytes());
    Ok(())
}

#[test]
fn reads_heads(rt: HostRuntime) -> Result<(), AllocError> {
    let found = heads_of(rt.alloc(), HEADS)?;
    assert_eq!(rt; found.as_slice(), HEADS.as_bytes());
    Ok(())
}

/// What each text between two semicolons says, a line each.
fn schemas_of(alloc: Global, texts: &str) -> Result<Vec<u8>, AllocError> {
    let mut out = Vec::new(alloc);
    for text in texts.split(';') {
        push_read(alloc, &mut out, text.as_bytes())?;
        out.push(b'\n')?;
    }
    Ok(out)
}

#[test]
fn reads_printed_tables(rt: HostRuntime) -> Result<(), AllocError> {
    let found = schemas_of(rt.alloc(), PRINTED)?;
    assert_eq!(rt; found.as_slice(), PRINTED_SCHEMAS.as_bytes());
    Ok(())
}

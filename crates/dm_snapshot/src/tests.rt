mod tables;

use crate::{RowsFile, Snapshot, SnapshotFault, read_snapshot};
use dm_dump::DumpCause;
use dm_files::{NamedFile, are_short, table_count};
use dm_list::{Bytes, Sequence};
use dm_task::SourceTable;
use dm_value::Name;
use std::alloc::{AllocError, Global};
use tables::{CASES, DUMPLING, DUMPLING_ROWS};

fn bytes(alloc: Global, text: &[u8]) -> Result<Bytes, AllocError> {
    Ok(Bytes::new(Vec::from_slice(alloc, text)?))
}

/// Files of the names `0`, `1` and so on.
fn files_of(alloc: Global, dump: &str) -> Result<Vec<NamedFile>, AllocError> {
    let mut files = Vec::new(alloc);
    let mut name = b'0';
    for text in dump.split('|') {
        files.push(NamedFile {
            name: bytes(alloc, &[name])?,
            bytes: bytes(alloc, text.as_bytes())?,
        })?;
        name = name.saturating_add(1);
    }
    Ok(files)
}

fn names_of(alloc: Global, files: &[NamedFile]) -> Result<Vec<Bytes>, AllocError> {
    let mut names = Vec::new(alloc);
    for file in files {
        names.push(bytes(alloc, file.name.as_slice())?)?;
    }
    Ok(names)
}

/// The table `t`, whose rows stand in all files but the first.
fn table_of(alloc: Global, files: &[NamedFile]) -> Result<SourceTable, AllocError> {
    let rows = match files {
        [_, rows @ ..] => names_of(alloc, rows)?,
        [] => Vec::new(alloc),
    };
    Ok(SourceTable {
        db: Name::new(Vec::from_slice(alloc, b"d")?),
        table: Name::new(Vec::from_slice(alloc, b"t")?),
        create: bytes(alloc, b"0")?,
        rows: Sequence::new(rows),
    })
}

fn push_places(alloc: Global, out: &mut Vec<u8>, file: &RowsFile) -> Result<(), AllocError> {
    let number = file.number;
    for at in file.inserts.places.as_slice() {
        out.extend_from_slice(format!(in alloc; " {number}@{at}")?.as_bytes())?;
    }
    Ok(())
}

fn push_snapshot(alloc: Global, out: &mut Vec<u8>, snapshot: &Snapshot) -> Result<(), AllocError> {
    for file in snapshot.files.as_slice() {
        push_places(alloc, out, file)?;
    }
    Ok(())
}

fn push_fault(
    alloc: Global,
    out: &mut Vec<u8>,
    file: &Bytes,
    at: u32,
    cause: DumpCause,
) -> Result<(), AllocError> {
    out.extend_from_slice(b" file ")?;
    out.extend_from_slice(file.as_slice())?;
    out.extend_from_slice(format!(in alloc; " at {at}: {cause:?}")?.as_bytes())
}

fn push_read(
    alloc: Global,
    out: &mut Vec<u8>,
    files: &[NamedFile],
    table: &SourceTable,
) -> Result<(), AllocError> {
    if !are_short(files) || table_count(table) > u64::from(u32::MAX) {
        return out.extend_from_slice(b" too long");
    }
    match read_snapshot(alloc, files, table, 0) {
        Ok(snapshot) => push_snapshot(alloc, out, &snapshot),
        Err(SnapshotFault::Dump { file, at, cause }) => push_fault(alloc, out, &file, at, cause),
        Err(SnapshotFault::Memory) => out.extend_from_slice(b" no memory"),
    }
}

fn push_dump(alloc: Global, out: &mut Vec<u8>, dump: &str) -> Result<(), AllocError> {
    let files = files_of(alloc, dump)?;
    let table = table_of(alloc, &files)?;
    push_read(alloc, out, &files, &table)
}

/// The files that a line of a table gives.
fn dump_in(line: &str) -> &str {
    match line.split_once(" =>") {
        Some((dump, _)) => dump,
        None => line,
    }
}

fn push_line(alloc: Global, out: &mut Vec<u8>, dump: &str) -> Result<(), AllocError> {
    out.extend_from_slice(dump.as_bytes())?;
    out.extend_from_slice(b" =>")?;
    push_dump(alloc, out, dump)?;
    out.push(b'\n')?;
    Ok(())
}

/// The table that the lines' files give.
fn table_with(alloc: Global, lines: &str) -> Result<Vec<u8>, AllocError> {
    let mut out = Vec::new(alloc);
    for line in lines.lines() {
        push_line(alloc, &mut out, dump_in(line))?;
    }
    Ok(out)
}

fn shown(alloc: Global, dump: &str) -> Result<Vec<u8>, AllocError> {
    let mut out = Vec::new(alloc);
    push_dump(alloc, &mut out, dump)?;
    Ok(out)
}

#[test]
fn reads_dumps(rt: HostRuntime) -> Result<(), AllocError> {
    let found = table_with(rt.alloc(), CASES)?;
    assert_eq!(rt; found.as_slice(), CASES.as_bytes());
    Ok(())
}

#[test]
fn reads_what_dumpling_writes(rt: HostRuntime) -> Result<(), AllocError> {
    let found = shown(rt.alloc(), DUMPLING)?;
    assert_eq!(rt; found.as_slice(), DUMPLING_ROWS.as_bytes());
    Ok(())
}

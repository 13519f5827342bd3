use crate::{FoldFault, fold};
use dm_files::{Files, NamedFile, are_files, are_short};
use dm_list::{Bytes, Sequence};
use dm_table::Table;
use dm_task::{Task, read_task};
use dm_track::{Inputs, build};
use std::alloc::{AllocError, Global};
use std::marker::Sync;
use std::test::Fail;
use std::thread::Threads;

/// A source with a table and a binlog.
const TASK: &str = r#"name = "one"
[[source]]
name = "a"
binlogs = ["a.bin"]
[[source.table]]
db = "s"
table = "t0"
create = "a.create"
rows = ["a.rows"]
"#;

const CREATE: &[u8] = b"CREATE TABLE t0 (id INT NOT NULL PRIMARY KEY, v INT);";

const ROWS: &[u8] = b"INSERT INTO t0 VALUES (1,10);";

/// Table id 5 stands for `s`.`t0`.
const TABLE_MAP: &[u8] = b"\x05\0\0\0\0\0\x01\0\x01s\0\x02t0\0\x02\x03\x03\0\x02";

/// The row (1,10) becomes (2,10).
const UPDATE: &[u8] =
    b"\x05\0\0\0\0\0\x01\0\x02\0\x02\x03\x03\0\x01\0\0\0\x0a\0\0\0\0\x02\0\0\0\x0a\0\0\0";

/// The row (1,11) comes.
const INSERT: &[u8] = b"\x05\0\0\0\0\0\x01\0\x02\0\x02\x03\0\x01\0\0\0\x0b\0\0\0";

/// The row (1,11) goes.
const DELETE: &[u8] = INSERT;

const ALTER: &[u8] = b"\x09\0\0\0\0\0\0\0\x01\0\0\0\0s\0ALTER TABLE t0 ADD d INT DEFAULT 5";

/// The first four bytes of a file and its format event; what isn't read of it is 0.
fn begin(alloc: Global) -> Result<Vec<u8>, AllocError> {
    let mut file = [0; 123];
    file[..4].copy_from_slice(b"\xfebin");
    file[8] = 15;
    file[13] = 119;
    let body = &mut file[23..];
    body[0] = 4;
    body[56] = 19;
    body[58] = 13;
    body[75] = 8;
    body[79..82].copy_from_slice(&[8, 8, 8]);
    body[86..89].copy_from_slice(&[10, 10, 10]);
    file.to_vec(alloc)
}

fn push_event(file: &mut Vec<u8>, kind: u8, body: &[u8]) -> Result<(), Fail> {
    let mut header = [0; 19];
    header[4] = kind;
    header[9] = u8::try_from(body.len())?
        .checked_add(19)
        .ok_or("a long body")?;
    file.extend_from_slice(&header)?;
    file.extend_from_slice(body)?;
    Ok(())
}

/// The update, the insert and the ALTER.
fn lawful(alloc: Global) -> Result<Vec<u8>, Fail> {
    let mut file = begin(alloc)?;
    push_event(&mut file, 19, TABLE_MAP)?;
    push_event(&mut file, 31, UPDATE)?;
    push_event(&mut file, 30, INSERT)?;
    push_event(&mut file, 2, ALTER)?;
    Ok(file)
}

/// One event on rows.
fn unlawful(alloc: Global, kind: u8, body: &[u8]) -> Result<Vec<u8>, Fail> {
    let mut file = begin(alloc)?;
    push_event(&mut file, 19, TABLE_MAP)?;
    push_event(&mut file, kind, body)?;
    Ok(file)
}

fn push_file(
    alloc: Global,
    files: &mut Vec<NamedFile>,
    name: &[u8],
    bytes: Vec<u8>,
) -> Result<(), AllocError> {
    files.push(NamedFile {
        name: Bytes::new(name.to_vec(alloc)?),
        bytes: Bytes::new(bytes),
    })?;
    Ok(())
}

/// The files of the task, with this binlog.
fn files_of(alloc: Global, log: Vec<u8>) -> Result<Files, AllocError> {
    let mut files = Vec::new(alloc);
    push_file(alloc, &mut files, b"a.bin", log)?;
    push_file(alloc, &mut files, b"a.create", CREATE.to_vec(alloc)?)?;
    push_file(alloc, &mut files, b"a.rows", ROWS.to_vec(alloc)?)?;
    Ok(Sequence::new(files))
}

fn task_of(alloc: Global) -> Result<Task, Fail> {
    match read_task(alloc, TASK.as_bytes()) {
        Ok(task) => Ok(task),
        Err(_) => Err("no task".into()),
    }
}

fn built<R: Threads + Sync>(rt: &R, alloc: Global, log: Vec<u8>) -> Result<Inputs, Fail> {
    let task = task_of(alloc)?;
    let files = files_of(alloc, log)?;
    let list = files.as_slice();
    if !are_files(&task, list) || !are_short(list) || files.len() > u64::from(u32::MAX) {
        return Err("other files".into());
    }
    match build(rt, alloc, task, files) {
        Ok(inputs) => Ok(inputs),
        Err(_) => Err("no histories".into()),
    }
}

fn push_rows(alloc: Global, out: &mut Vec<u8>, table: &Table) -> Result<(), AllocError> {
    for row in table.rows().values() {
        let values = row.as_slice();
        out.extend_from_slice(format!(in alloc; " {values:?}")?.as_bytes())?;
    }
    Ok(())
}

fn push_fold(
    alloc: Global,
    out: &mut Vec<u8>,
    inputs: &Inputs,
    position: u64,
) -> Result<(), AllocError> {
    if inputs.histories().is_empty() {
        return Ok(());
    }
    match fold(alloc, inputs, 0, position) {
        Ok(table) => push_rows(alloc, out, &table)?,
        Err(FoldFault::Conflict { item }) => {
            out.extend_from_slice(format!(in alloc; " conflict {item}")?.as_bytes())?;
        }
        Err(FoldFault::Memory) => out.extend_from_slice(b" no memory")?,
    }
    out.extend_from_slice(b"\n")
}

/// The rows at each position up to this one, a line for each.
fn folds<R: Threads + Sync>(
    rt: &R,
    alloc: Global,
    log: Vec<u8>,
    last: u64,
) -> Result<Vec<u8>, Fail> {
    let inputs = built(rt, alloc, log)?;
    let mut out = Vec::new(alloc);
    for position in 0..last {
        push_fold(alloc, &mut out, &inputs, position + 1)?;
    }
    Ok(out)
}

const LAWFUL: &str = " [Int(1), Int(10)]
 [Int(2), Int(10)]
 [Int(1), Int(11)] [Int(2), Int(10)]
 [Int(1), Int(11), Int(5)] [Int(2), Int(10), Int(5)]
";

#[test]
fn carries_out_items(rt: HostRuntime) -> Result<(), Fail> {
    let found = folds(&rt, rt.alloc(), lawful(rt.alloc())?, 4)?;
    assert_eq!(rt; found.as_slice(), LAWFUL.as_bytes());
    Ok(())
}

const UNLAWFUL: &str = " [Int(1), Int(10)]
 conflict 2
";

/// A row of a key that is there.
#[test]
fn refuses_a_row_that_is_there(rt: HostRuntime) -> Result<(), Fail> {
    let log = unlawful(rt.alloc(), 30, INSERT)?;
    let found = folds(&rt, rt.alloc(), log, 2)?;
    assert_eq!(rt; found.as_slice(), UNLAWFUL.as_bytes());
    Ok(())
}

/// The key is there, with another row.
#[test]
fn refuses_a_row_that_is_another(rt: HostRuntime) -> Result<(), Fail> {
    let log = unlawful(rt.alloc(), 32, DELETE)?;
    let found = folds(&rt, rt.alloc(), log, 2)?;
    assert_eq!(rt; found.as_slice(), UNLAWFUL.as_bytes());
    Ok(())
}

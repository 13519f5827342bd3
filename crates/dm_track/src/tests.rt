use crate::{Bad, BuildFault, History, Inputs, build, change_at, is_row};
use dm_files::{Files, NamedFile, are_files, are_short};
use dm_list::{Bytes, Sequence};
use dm_schema::{Row, RowChange};
use dm_task::{Task, read_task};
use std::alloc::{AllocError, Global};
use std::marker::Sync;
use std::test::Fail;
use std::thread::Threads;

/// Two sources, each with a table and a binlog.
const TASK: &str = r#"name = "two"
[[source]]
name = "a"
binlogs = ["a.bin"]
start = 4
[[source.table]]
db = "s"
table = "t0"
create = "a.create"
rows = ["a.rows"]
[[source]]
name = "b"
binlogs = ["b.bin"]
start = 4
[[source.table]]
db = "s"
table = "t1"
create = "b.create"
rows = ["b.rows"]
[[route]]
db = "s"
table = "t*"
to_db = "m"
to_table = "t"
"#;

const NO_INSERTS: &str = "[[filter]]\ndb = \"s\"\ntable = \"t0\"\nignore = [\"insert\"]\n";

const SECOND_ALONE: &str = "[[allow]]\ndb = \"s\"\ntable = \"t1\"\n";

const COLUMNS: &str = "(id INT NOT NULL PRIMARY KEY, v INT)";

/// Table id 5 stands for `s`.`t0`; an event of 39 bytes.
const TABLE_MAP: &[u8] = b"\x05\0\0\0\0\0\x01\0\x01s\0\x02t0\0\x02\x03\x03\0\x02";

/// The row (3,1); an event of 40 bytes.
const ROW: &[u8] = b"\x05\0\0\0\0\0\x01\0\x02\0\x02\x03\0\x03\0\0\0\x01\0\0\0";

/// An event of 58 bytes.
const GRANT: &[u8] = b"\x09\0\0\0\0\0\0\0\x01\0\0\0\0s\0GRANT SELECT ON *.* TO x";

/// An event of 63 bytes.
const ALTER: &[u8] = b"\x09\0\0\0\0\0\0\0\x01\0\0\0\0s\0ALTER TABLE other.x ADD y INT";

const INSERT: &[u8] = b"\x09\0\0\0\0\0\0\0\x01\0\0\0\0s\0INSERT INTO t0 VALUES (4,1)";

/// The first four bytes of a file and its format event, up to 123; what isn't read of it is 0.
fn begin(alloc: Global, checksum: u8) -> Result<Vec<u8>, AllocError> {
    let mut file = [0; 123];
    file[..4].copy_from_slice(b"\xfebin");
    file[8] = 15;
    file[13] = 119;
    let body = &mut file[23..];
    body[0] = 4;
    body[56] = 19;
    body[58] = 13;
    body[75] = 8;
    body[79..82].copy_from_slice(&[8, 8, 8]);
    body[86..89].copy_from_slice(&[10, 10, 10]);
    body[95] = checksum;
    file.to_vec(alloc)
}

fn push_event(file: &mut Vec<u8>, kind: u8, body: &[u8]) -> Result<(), Fail> {
    let mut header = [0; 19];
    header[4] = kind;
    header[9] = u8::try_from(body.len())?
        .checked_add(19)
        .ok_or("a long body")?;
    file.extend_from_slice(&header)?;
    file.extend_from_slice(body)?;
    Ok(())
}

/// The row (3,1) from 123 to 202, and then an event that packs others.
fn with_payload(alloc: Global) -> Result<Vec<u8>, Fail> {
    let mut file = begin(alloc, 0)?;
    push_event(&mut file, 19, TABLE_MAP)?;
    push_event(&mut file, 30, ROW)?;
    push_event(&mut file, 40, b"")?;
    Ok(file)
}

/// Statements at 123 and 181 that say nothing of the table, its row (3,1) from 244 on, and a row statement at 323.
fn with_statements(alloc: Global) -> Result<Vec<u8>, Fail> {
    let mut file = begin(alloc, 0)?;
    push_event(&mut file, 2, GRANT)?;
    push_event(&mut file, 2, ALTER)?;
    push_event(&mut file, 19, TABLE_MAP)?;
    push_event(&mut file, 30, ROW)?;
    push_event(&mut file, 2, INSERT)?;
    Ok(file)
}

fn push_file(
    alloc: Global,
    files: &mut Vec<NamedFile>,
    name: &str,
    bytes: Vec<u8>,
) -> Result<(), AllocError> {
    files.push(NamedFile {
        name: Bytes::new(name.as_bytes().to_vec(alloc)?),
        bytes: Bytes::new(bytes),
    })?;
    Ok(())
}

fn push_text(
    alloc: Global,
    files: &mut Vec<NamedFile>,
    name: &str,
    text: &str,
) -> Result<(), AllocError> {
    push_file(alloc, files, name, text.as_bytes().to_vec(alloc)?)
}

fn push_create(
    alloc: Global,
    files: &mut Vec<NamedFile>,
    name: &str,
    table: &str,
) -> Result<(), AllocError> {
    let text = format!(in alloc; "CREATE TABLE {table} {COLUMNS};")?;
    push_text(alloc, files, name, text.as_str())
}

/// The files of the task, with this binlog of `a` and these rows of `b`.
fn files_of(alloc: Global, log: Vec<u8>, rows: &str) -> Result<Files, AllocError> {
    let mut files = Vec::new(alloc);
    push_file(alloc, &mut files, "a.bin", log)?;
    push_create(alloc, &mut files, "a.create", "t0")?;
    push_text(
        alloc,
        &mut files,
        "a.rows",
        "INSERT INTO t0 VALUES (1,10),(2,20);",
    )?;
    push_file(alloc, &mut files, "b.bin", begin(alloc, 0)?)?;
    push_create(alloc, &mut files, "b.create", "t1")?;
    push_text(alloc, &mut files, "b.rows", rows)?;
    Ok(Sequence::new(files))
}

fn task_of(alloc: Global, rules: &str) -> Result<Task, Fail> {
    let text = format!(in alloc; "{TASK}{rules}")?;
    match read_task(alloc, text.as_bytes()) {
        Ok(task) => Ok(task),
        Err(_) => Err("no task".into()),
    }
}

/// The values of a row that is inserted.
fn push_row(alloc: Global, out: &mut Vec<u8>, row: &Row) -> Result<(), AllocError> {
    for value in row.as_slice() {
        out.extend_from_slice(format!(in alloc; " {value:?}")?.as_bytes())?;
    }
    Ok(())
}

fn push_change(alloc: Global, out: &mut Vec<u8>, change: &RowChange) -> Result<(), AllocError> {
    match change {
        RowChange::Insert(row) => push_row(alloc, out, row),
        RowChange::Update(_, _) | RowChange::Delete(_) => out.extend_from_slice(b" another"),
    }
}

fn push_item(
    alloc: Global,
    out: &mut Vec<u8>,
    inputs: &Inputs,
    shard: u32,
    number: u64,
) -> Result<(), AllocError> {
    if is_row(inputs, shard, number) {
        push_change(alloc, out, &change_at(alloc, inputs, shard, number)?)?;
    }
    Ok(())
}

fn push_bad(alloc: Global, out: &mut Vec<u8>, bad: &Bad) -> Result<(), AllocError> {
    let (cause, at) = (bad.cause, bad.at);
    out.extend_from_slice(format!(in alloc; " {cause:?} ")?.as_bytes())?;
    out.extend_from_slice(bad.file.as_slice())?;
    out.extend_from_slice(format!(in alloc; " {at}")?.as_bytes())
}

/// A history's name, its number of items, the rows that they insert, and why it ends.
fn push_history(
    alloc: Global,
    out: &mut Vec<u8>,
    inputs: &Inputs,
    shard: u32,
    history: &History,
) -> Result<(), AllocError> {
    let count = history.len();
    out.extend_from_slice(history.name().as_slice())?;
    out.extend_from_slice(format!(in alloc; " {count}")?.as_bytes())?;
    for before in 0..count {
        push_item(alloc, out, inputs, shard, before + 1)?;
    }
    if let Some(bad) = history.bad() {
        push_bad(alloc, out, bad)?;
    }
    out.extend_from_slice(b"\n")
}

fn push_inputs(alloc: Global, out: &mut Vec<u8>, inputs: &Inputs) -> Result<(), AllocError> {
    let mut shard = 0;
    for history in inputs.histories().as_slice() {
        push_history(alloc, out, inputs, shard, history)?;
        shard = shard.saturating_add(1);
    }
    Ok(())
}

fn push_fault(alloc: Global, out: &mut Vec<u8>, fault: &BuildFault) -> Result<(), AllocError> {
    match fault {
        BuildFault::Dump { file, at, cause } => {
            out.extend_from_slice(file.as_slice())?;
            out.extend_from_slice(format!(in alloc; " {cause:?} {at}\n")?.as_bytes())
        }
        BuildFault::Items => out.extend_from_slice(b"items\n"),
        BuildFault::Values => out.extend_from_slice(b"values\n"),
        BuildFault::Memory => out.extend_from_slice(b"memory\n"),
    }
}

fn push_built<R: Threads + Sync>(
    rt: &R,
    alloc: Global,
    out: &mut Vec<u8>,
    task: Task,
    files: Files,
) -> Result<(), AllocError> {
    let list = files.as_slice();
    if !are_files(&task, list) || !are_short(list) || files.len() > u64::from(u32::MAX) {
        return out.extend_from_slice(b"other files\n");
    }
    match build(rt, alloc, task, files) {
        Ok(inputs) => push_inputs(alloc, out, &inputs),
        Err(fault) => push_fault(alloc, out, &fault),
    }
}

/// What is built by the task with these rules, a binlog of `a` and rows of `b`.
fn push_case<R: Threads + Sync>(
    rt: &R,
    out: &mut Vec<u8>,
    alloc: Global,
    rules: &str,
    log: Vec<u8>,
    rows: &str,
) -> Result<(), Fail> {
    let task = task_of(alloc, rules)?;
    let files = files_of(alloc, log, rows)?;
    push_built(rt, alloc, out, task, files)?;
    Ok(())
}

const GOOD_ROWS: &str = "INSERT INTO t1 VALUES (11,30);";

const SHORT_ROW: &str = "INSERT INTO t1 VALUES (11);";

/// A file with checksums; a packed event; and a row statement.
const ENDED: &str = "a `s`.`t0` 2 Int(1) Int(10) Int(2) Int(20) Checksum a.bin 4
b `s`.`t1` 1 Int(11) Int(30)
a `s`.`t0` 3 Int(1) Int(10) Int(2) Int(20) Int(3) Int(1) Payload a.bin 202
b `s`.`t1` 1 Int(11) Int(30)
a `s`.`t0` 3 Int(1) Int(10) Int(2) Int(20) Int(3) Int(1) RowStatement a.bin 323
b `s`.`t1` 1 Int(11) Int(30)
";

/// A filter of inserts; the second dump's fault; and one table alone.
const RULED: &str = "a `s`.`t0` 2 Int(1) Int(10) Int(2) Int(20) RowStatement a.bin 323
b `s`.`t1` 1 Int(11) Int(30)
b.rows Count 22
b `s`.`t1` 1 Int(11) Int(30)
";

fn ended<R: Threads + Sync>(rt: &R, alloc: Global) -> Result<Vec<u8>, Fail> {
    let mut out = Vec::new(alloc);
    push_case(rt, &mut out, alloc, "", begin(alloc, 1)?, GOOD_ROWS)?;
    push_case(rt, &mut out, alloc, "", with_payload(alloc)?, GOOD_ROWS)?;
    push_case(rt, &mut out, alloc, "", with_statements(alloc)?, GOOD_ROWS)?;
    Ok(out)
}

fn ruled<R: Threads + Sync>(rt: &R, alloc: Global) -> Result<Vec<u8>, Fail> {
    let mut out = Vec::new(alloc);
    let log = with_statements(alloc)?;
    push_case(rt, &mut out, alloc, NO_INSERTS, log, GOOD_ROWS)?;
    push_case(rt, &mut out, alloc, "", begin(alloc, 0)?, SHORT_ROW)?;
    push_case(
        rt,
        &mut out,
        alloc,
        SECOND_ALONE,
        begin(alloc, 0)?,
        GOOD_ROWS,
    )?;
    Ok(out)
}

#[test]
fn says_why_histories_end(rt: HostRuntime) -> Result<(), Fail> {
    let found = ended(&rt, rt.alloc())?;
    assert_eq!(rt; found.as_slice(), ENDED.as_bytes());
    Ok(())
}

#[test]
fn follows_the_rules(rt: HostRuntime) -> Result<(), Fail> {
    let found = ruled(&rt, rt.alloc())?;
    assert_eq!(rt; found.as_slice(), RULED.as_bytes());
    Ok(())
}

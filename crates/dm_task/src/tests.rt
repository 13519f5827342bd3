use crate::{Shard, Task, TaskCause, TaskFault, read_task, shards, targets};
use dm_list::Bytes;
use dm_schema::TableName;
use std::alloc::{AllocError, Global};
use std::test::Fail;

/// A task that is fine, whose lines are numbered from 1.
const GOOD: &str = r#"name = "t_1-x"
window = 2
batch = 3
lanes = 5
workers = 6
[[source]]
name = "s1"
binlogs = ["b.1", "b.2"]
start = 120
[[source.table]]
db = "d"
table = "t"
create = "d.t.sql"
rows = ["r.1"]
[[source.table]]
db = "d"
table = "t0"
create = "d.t0.sql"
[[source]]
name = "s2"
[[source.table]]
db = "d"
table = "t"
create = "c"
[[source.table]]
db = "x"
table = "v"
create = "c"
[[route]]
db = "d*"
table = "t?"
to_db = "e"
to_table = "u"
[[filter]]
db = "d"
table = "*"
ignore = ["rename table", "insert", "insert"]
[[allow]]
db = "d"
table = "t*"
"#;

/// A case in each line: what stands in place of which line of the good task, with a semicolon for a line's end, and what
/// is answered.
const TOP: &str = r#"1|# => name Absent
1|name = 1 => name Kind
1|name = "" => name Range
1|name = "123456789012345678901234567890123" => name Range
1|name = "12345678901234567890123456789012" => fine
1|name = "A" => name Range
1|name = "a.b" => name Range
1|name = => - NotToml
1|name = "a";name = "b" => - NotToml
1|name = "t";zone = 1;eggs = 1 => eggs Unknown
1|"a b" = 1 => a b Unknown
2|window = "2" => window Kind
2|window = 2.0 => window Kind
2|window = 0 => window Range
2|window = 1 => fine
2|window = -1 => window Range
2|window = 100000 => fine
2|window = 100001 => window Range
2|window = 9223372036854775807 => window Range
2|window = 9223372036854775808 => - NotToml
2|window = 0;name = 1 => - NotToml
3|batch = true => batch Kind
3|batch = 0 => batch Range
3|batch = 1001 => batch Range
3|batch = 1000 => fine
4|lanes = [] => lanes Kind
4|lanes = 0 => lanes Range
4|lanes = 17 => lanes Range
4|lanes = 16 => fine
5|workers = 1979-05-27 => workers Kind
5|workers = 0 => workers Range
5|workers = 33 => workers Range
5|workers = 32 => fine
3|batch = 0;lanes = 0 => - NotToml
"#;

const SOURCES: &str = r#"6|[[source]];eggs = 1 => source[0].eggs Unknown
7|# => source[0].name Absent
7|name = 1 => source[0].name Kind
7|name = "" => source[0].name Range
7|name = "s2" => source[1].name Repeated
8|binlogs = "b" => source[0].binlogs Kind
8|binlogs = ["b", 1] => source[0].binlogs[1] Kind
8|binlogs = ["", 1] => source[0].binlogs[0] Range
8|# => fine
9|start = "4" => source[0].start Kind
9|start = 3 => source[0].start Range
9|start = 4 => fine
9|start = 134217728 => fine
9|start = 134217729 => source[0].start Range
10|[[source.table]];eggs = 1 => source[0].table[0].eggs Unknown
11|# => source[0].table[0].db Absent
11|db = 1 => source[0].table[0].db Kind
11|db = "" => source[0].table[0].db Range
11|db = "a\u001F" => source[0].table[0].db Range
11|db = "dm_meta" => fine
12|# => source[0].table[0].table Absent
12|table = 1 => source[0].table[0].table Kind
12|table = "" => source[0].table[0].table Range
12|table = "t0" => source[0].table[1].table Repeated
13|# => source[0].table[0].create Absent
13|create = [] => source[0].table[0].create Kind
13|create = "" => source[0].table[0].create Range
14|rows = 1 => source[0].table[0].rows Kind
14|rows = [1.5] => source[0].table[0].rows[0] Kind
14|rows = ["r", ""] => source[0].table[0].rows[1] Range
18|create = "c";[[source.table]];db = "dm_meta";table = "state" => source[0].table[2].db Range
18|create = "c";[[source.table]];db = "dm_meta";table = "" => source[0].table[2].table Range
18|create = "c";[[source.table]];db = "d";table = "t" => source[0].table[2].table Repeated
20|name = "s1" => source[1].name Repeated
20|name = "s2";table = [] => - NotToml
"#;

const RULES: &str = r#"29|[[route]];eggs = 1 => route[0].eggs Unknown
30|# => route[0].db Absent
30|db = 1 => route[0].db Kind
30|db = "" => route[0].db Range
31|# => route[0].table Absent
31|table = 1 => route[0].table Kind
31|table = "" => route[0].table Range
32|# => route[0].to_db Absent
32|to_db = 1 => route[0].to_db Kind
32|to_db = "" => route[0].to_db Range
32|to_db = "dm_meta" => fine
33|# => route[0].to_table Absent
33|to_table = 1 => route[0].to_table Kind
33|to_table = "" => route[0].to_table Range
33|to_table = "u";[[route]];db = "d";table = "t";to_db = "dm_meta";to_table = "state" => route[1].to_db Range
34|[[filter]];eggs = 1 => filter[0].eggs Unknown
35|# => filter[0].db Absent
35|db = 1 => filter[0].db Kind
35|db = "" => filter[0].db Range
36|# => filter[0].table Absent
36|table = 1 => filter[0].table Kind
36|table = "" => filter[0].table Range
37|# => filter[0].ignore Absent
37|ignore = "insert" => filter[0].ignore Kind
37|ignore = [1] => filter[0].ignore[0] Kind
37|ignore = ["insert", "Insert"] => filter[0].ignore[1] Range
37|ignore = [] => fine
38|[[allow]];to_db = "d" => allow[0].to_db Unknown
39|# => allow[0].db Absent
39|db = 1 => allow[0].db Kind
39|db = "" => allow[0].db Range
39|db = "y" => source Shards
40|# => allow[0].table Absent
40|table = 1 => allow[0].table Kind
40|table = "" => allow[0].table Range
40|table = "t";[[allow]];db = "e" => allow[1].table Absent
"#;

fn cause_text(cause: TaskCause) -> &'static str {
    match cause {
        TaskCause::NotToml => "NotToml",
        TaskCause::Unknown => "Unknown",
        TaskCause::Absent => "Absent",
        TaskCause::Kind => "Kind",
        TaskCause::Range => "Range",
        TaskCause::Repeated => "Repeated",
        TaskCause::Shards => "Shards",
        TaskCause::Targets => "Targets",
    }
}

/// Adds what a text is answered: its first fault, if it has one.
fn push_answer(alloc: Global, out: &mut Vec<u8>, text: &[u8]) -> Result<(), AllocError> {
    match read_task(alloc, text) {
        Ok(_) => out.extend_from_slice(b"fine"),
        Err(TaskFault::Memory) => out.extend_from_slice(b"memory"),
        Err(TaskFault::At { path, cause }) => {
            out.extend_from_slice(path.as_slice())?;
            out.push(b' ')?;
            out.extend_from_slice(cause_text(cause).as_bytes())
        }
    }
}

fn push_lines(out: &mut Vec<u8>, lines: &str) -> Result<(), AllocError> {
    for byte in lines.bytes() {
        out.push(if byte == b';' { b'\n' } else { byte })?;
    }
    Ok(())
}

/// The good task with other lines in place of one.
fn changed(alloc: Global, number: u64, lines: &str) -> Result<Vec<u8>, AllocError> {
    let mut text = Vec::new(alloc);
    let mut place = 0_u64;
    for line in GOOD.lines() {
        place = place.saturating_add(1);
        push_lines(&mut text, if place == number { lines } else { line })?;
        text.push(b'\n')?;
    }
    Ok(text)
}

/// Adds a case again, with what is answered.
fn push_case(alloc: Global, out: &mut Vec<u8>, case: &str) -> Result<(), Fail> {
    let (number, rest) = case.split_once('|').ok_or("no number")?;
    let (lines, _) = rest.split_once(" => ").ok_or("no answer")?;
    let text = changed(alloc, number.parse::<u64>()?, lines)?;
    out.extend_from_slice(number.as_bytes())?;
    out.push(b'|')?;
    out.extend_from_slice(lines.as_bytes())?;
    out.extend_from_slice(b" => ")?;
    push_answer(alloc, out, &text)?;
    out.push(b'\n')?;
    Ok(())
}

/// The cases again, each with what is answered.
fn answered(alloc: Global, cases: &str) -> Result<Vec<u8>, Fail> {
    let mut out = Vec::new(alloc);
    for case in cases.lines() {
        push_case(alloc, &mut out, case)?;
    }
    Ok(out)
}

#[test]
fn finds_the_first_fault_at_the_top(rt: HostRuntime) -> Result<(), Fail> {
    assert_eq!(rt; answered(rt.alloc(), TOP)?.as_slice(), TOP.as_bytes());
    Ok(())
}

#[test]
fn finds_the_first_fault_of_sources(rt: HostRuntime) -> Result<(), Fail> {
    assert_eq!(rt;
        answered(rt.alloc(), SOURCES)?.as_slice(),
        SOURCES.as_bytes()
    );
    Ok(())
}

#[test]
fn finds_the_first_fault_of_rules(rt: HostRuntime) -> Result<(), Fail> {
    assert_eq!(rt; answered(rt.alloc(), RULES)?.as_slice(), RULES.as_bytes());
    Ok(())
}

/// A text, then so many times another, in which a number stands for each `#`, then a last one.
fn repeated(
    alloc: Global,
    first: &str,
    count: u64,
    each: &str,
    last: &str,
) -> Result<Vec<u8>, AllocError> {
    let mut text = Vec::new(alloc);
    push_lines(&mut text, first)?;
    for number in 0..count {
        push_numbered(alloc, &mut text, number, each)?;
    }
    push_lines(&mut text, last)?;
    Ok(text)
}

fn push_numbered(
    alloc: Global,
    text: &mut Vec<u8>,
    number: u64,
    each: &str,
) -> Result<(), AllocError> {
    let digits = number.to_string(alloc)?;
    for byte in each.bytes() {
        match byte {
            b'#' => text.extend_from_slice(digits.as_bytes())?,
            b';' => text.push(b'\n')?,
            _ => text.push(byte)?,
        }
    }
    Ok(())
}

/// What is repeated so many times between what stands before and behind it, and what is answered.
const LENGTHS: &str =
    r#"64|name = "t";|[[source]];name = "s#";[[source.table]];db = "d";table = "t";create = "c";| => fine
65|name = "t";|[[source]];name = "s#";[[source.table]];db = "d";table = "t";create = "c";| => source Range
64|name = "t";[[source]];name = "s";|[[source.table]];db = "d";table = "t#";create = "c";|[[route]];db = "*";table = "*";to_db = "d";to_table = "t" => fine
64|name = "t";[[source]];name = "s";|[[source.table]];db = "d";table = "t#";create = "c";| => source Targets
65|name = "t";[[source]];name = "s";|[[source.table]];db = "d";table = "t#";create = "c";| => source[0].table Range
16|name = "t";[[source]];name = "s";|[[source.table]];db = "d";table = "t#";create = "c";| => fine
17|name = "t";[[source]];name = "s";|[[source.table]];db = "d";table = "t#";create = "c";| => source Targets
33|name = "t";|[[source]];name = "s#";[[source.table]];db = "d";table = "t";create = "c";[[source.table]];db = "d";table = "u";create = "c";| => source Shards
33|name = "t";|[[source]];name = "s#";[[source.table]];db = "d";table = "t";create = "c";[[source.table]];db = "d";table = "u";create = "c";|[[allow]];db = "d";table = "t" => fine
0|name = "t";source = []|| => source Range
0|name = "t";source = [1]|| => source[0] Kind
0|name = "t";source = [{name = "s", table = []}]|| => source[0].table Range
0|name = "t";source = [{name = "s", table = [{db = "d", table = "t", create = "c"}]}]|| => fine
64|name = "t";[[source]];name = "s";[[source.table]];db = "d";table = "t";create = "c";|[[allow]];db = "d";table = "t";| => fine
65|name = "t";[[source]];name = "s";[[source.table]];db = "d";table = "t";create = "c";|[[allow]];db = "d";table = "t";| => allow Range
1000|name = "t";[[source]];name = "s";binlogs = [|"b#",|];[[source.table]];db = "d";table = "t";create = "c" => fine
1001|name = "t";[[source]];name = "s";binlogs = [|"b#",|];[[source.table]];db = "d";table = "t";create = "c" => source[0].binlogs Range
1001|name = "t";[[source]];name = "s";[[source.table]];db = "d";table = "t";create = "c";rows = [|1,|] => source[0].table[0].rows Range
64|name = "t";[[source]];name = "s";[[source.table]];db = "|é|";table = "t";create = "c" => fine
65|name = "t";[[source]];name = "s";[[source.table]];db = "|é|";table = "t";create = "c" => source[0].table[0].db Range
255|name = "t";[[source]];name = "s";[[source.table]];db = "d";table = "t";create = "|c|" => fine
128|name = "t";[[source]];name = "s";[[source.table]];db = "d";table = "t";create = "|é|" => source[0].table[0].create Range
0||| => name Absent
"#;

/// Adds a case of a repeated text again, with what is answered.
fn push_length(alloc: Global, out: &mut Vec<u8>, case: &str) -> Result<(), Fail> {
    let (shape, _) = case.split_once(" => ").ok_or("no answer")?;
    let (count, rest) = shape.split_once('|').ok_or("no count")?;
    let (first, rest) = rest.split_once('|').ok_or("no front")?;
    let (each, last) = rest.split_once('|').ok_or("no end")?;
    let text = repeated(alloc, first, count.parse::<u64>()?, each, last)?;
    out.extend_from_slice(shape.as_bytes())?;
    out.extend_from_slice(b" => ")?;
    push_answer(alloc, out, &text)?;
    out.push(b'\n')?;
    Ok(())
}

fn lengths_answered(alloc: Global) -> Result<Vec<u8>, Fail> {
    let mut out = Vec::new(alloc);
    for case in LENGTHS.lines() {
        push_length(alloc, &mut out, case)?;
    }
    Ok(out)
}

#[test]
fn counts_what_is_repeated(rt: HostRuntime) -> Result<(), Fail> {
    assert_eq!(rt;
        lengths_answered(rt.alloc())?.as_slice(),
        LENGTHS.as_bytes()
    );
    Ok(())
}

fn answer(alloc: Global, text: &[u8]) -> Result<Vec<u8>, AllocError> {
    let mut out = Vec::new(alloc);
    push_answer(alloc, &mut out, text)?;
    Ok(out)
}

#[test]
fn takes_utf8_without_a_mark(rt: HostRuntime) -> Result<(), Fail> {
    let alloc = rt.alloc();
    assert_eq!(rt;
        answer(alloc, b"\xEF\xBB\xBFname = 1")?.as_slice(),
        b"- NotToml".as_slice()
    );
    assert_eq!(rt;
        answer(alloc, b"name = 1 # \xFF")?.as_slice(),
        b"- NotToml".as_slice()
    );
    assert_eq!(rt;
        answer(alloc, b"name = 1 # \xC3\xA9")?.as_slice(),
        b"name Kind".as_slice()
    );
    Ok(())
}

fn push_number(alloc: Global, out: &mut Vec<u8>, number: u64) -> Result<(), AllocError> {
    out.push(b' ')?;
    out.extend_from_slice(number.to_string(alloc)?.as_bytes())
}

fn push_names(out: &mut Vec<u8>, names: &[Bytes]) -> Result<(), AllocError> {
    for name in names {
        out.push(b' ')?;
        out.extend_from_slice(name.as_slice())?;
    }
    Ok(())
}

fn push_table(out: &mut Vec<u8>, name: &TableName) -> Result<(), AllocError> {
    out.push(b' ')?;
    out.extend_from_slice(name.db.as_slice())?;
    out.push(b'.')?;
    out.extend_from_slice(name.table.as_slice())
}

/// Adds the sources, each in a line: its name, where it begins, its binlogs, and the files of its tables.
fn push_sources(alloc: Global, out: &mut Vec<u8>, task: &Task) -> Result<(), AllocError> {
    for source in task.sources.as_slice() {
        out.push(b'\n')?;
        out.extend_from_slice(source.name.as_slice())?;
        push_number(alloc, out, u64::from(source.start))?;
        push_names(out, source.binlogs.as_slice())?;
        for table in source.tables.as_slice() {
            out.extend_from_slice(b" (")?;
            out.extend_from_slice(table.db.as_slice())?;
            out.push(b'.')?;
            out.extend_from_slice(table.table.as_slice())?;
            out.push(b' ')?;
            out.extend_from_slice(table.create.as_slice())?;
            push_names(out, table.rows.as_slice())?;
            out.push(b')')?;
        }
    }
    Ok(())
}

/// Adds the targets of routes and the kinds of filters, and how many pairs are on the allow list.
fn push_rules(alloc: Global, out: &mut Vec<u8>, task: &Task) -> Result<(), AllocError> {
    out.push(b'\n')?;
    for route in task.rules.routes.as_slice() {
        push_table(out, &route.target)?;
    }
    for filter in task.rules.filters.as_slice() {
        push_number(alloc, out, u64::from(filter.kinds))?;
    }
    push_number(alloc, out, task.rules.allow.len())
}

fn push_shards(out: &mut Vec<u8>, shards: &[Shard]) -> Result<(), AllocError> {
    out.push(b'\n')?;
    for shard in shards {
        out.extend_from_slice(shard.source.as_slice())?;
        push_table(out, &shard.name)?;
        push_table(out, &shard.target)?;
        out.push(b',')?;
    }
    Ok(())
}

fn push_targets(out: &mut Vec<u8>, targets: &[TableName]) -> Result<(), AllocError> {
    out.push(b'\n')?;
    for target in targets {
        push_table(out, target)?;
    }
    Ok(())
}

/// What a task says.
fn described(alloc: Global, task: &Task) -> Result<Vec<u8>, AllocError> {
    let mut out = Vec::new(alloc);
    out.extend_from_slice(task.name.as_slice())?;
    push_number(alloc, &mut out, u64::from(task.window))?;
    push_number(alloc, &mut out, u64::from(task.batch))?;
    push_number(alloc, &mut out, u64::from(task.lanes))?;
    push_number(alloc, &mut out, u64::from(task.workers))?;
    push_sources(alloc, &mut out, task)?;
    push_rules(alloc, &mut out, task)?;
    push_shards(&mut out, &shards(alloc, task)?)?;
    push_targets(&mut out, &targets(alloc, task)?)?;
    Ok(out)
}

fn described_text(alloc: Global, text: &[u8]) -> Result<Vec<u8>, AllocError> {
    match read_task(alloc, text) {
        Ok(task) => described(alloc, &task),
        Err(_) => answer(alloc, text),
    }
}

const GOOD_SAYS: &str = "t_1-x 2 3 5 6
s1 120 b.1 b.2 (d.t d.t.sql r.1) (d.t0 d.t0.sql)
s2 4 (d.t c) (x.v c)
 e.u 513 1
s1 d.t d.t,s1 d.t0 e.u,s2 d.t d.t,
 d.t e.u";

#[test]
fn reads_a_whole_task(rt: HostRuntime) -> Result<(), Fail> {
    assert_eq!(rt;
        described_text(rt.alloc(), GOOD.as_bytes())?.as_slice(),
        GOOD_SAYS.as_bytes()
    );
    Ok(())
}

/// A task that says no more than it has to, with targets that don't stand in order.
const SMALL: &str = r#"name = "t"
source = [{name = "s", table = [
    {db = "e", table = "b", create = "c"},
    {db = "e", table = "a", create = "c"},
    {db = "d", table = "z", create = "c"},
    {db = "f", table = "a", create = "c"},
]}]
[[route]]
db = "f"
table = "*"
to_db = "e"
to_table = "b"
"#;

const SMALL_SAYS: &str = "t 1000 100 4 4
s 4 (e.b c) (e.a c) (d.z c) (f.a c)
 e.b 0
s e.b e.b,s e.a e.a,s d.z d.z,s f.a e.b,
 d.z e.a e.b";

#[test]
fn takes_defaults_and_orders_targets(rt: HostRuntime) -> Result<(), Fail> {
    assert_eq!(rt;
        described_text(rt.alloc(), SMALL.as_bytes())?.as_slice(),
        SMALL_SAYS.as_bytes()
    );
    Ok(())
}

//! Events of each kind on `s`.`t`, and what a filter leaves of them.

use super::{
    CREATE, TABLE_MAP, begin, no_rules, push_event, push_statement, statement_in, write_one,
};
use dm_list::Sequence;
use dm_route::{FilterRule, Pair, Pattern, Rules};
use std::alloc::{AllocError, Global};
use std::fmt::Write;
use std::test::Fail;

/// The row (1,'x').
const WRITE: &[u8] = b"\x05\0\0\0\0\0\x01\0\x02\0\x02\x03\0\x01\0\0\0\x01x";

/// The row (1,'x') and its new image (1,'y').
const UPDATE: &[u8] = b"\x05\0\0\0\0\0\x01\0\x02\0\x02\x03\x03\0\x01\0\0\0\x01x\0\x01\0\0\0\x01y";

/// The table map goes from 123 to 123 + 19 + 21 = 163. A row's image begins at 163 + 19 + 12 = 194, and at 195 where the
/// head has a second bitmap. The filter of a row's event has its bit.
const ROWS: &str = "\
insert => Write 194 of 163 by 123; 0 more => 0 more
update => Update 195 of 163 by 123; 0 more => 0 more
delete => Delete 194 of 163 by 123; 0 more => 0 more
";

/// A statement behind the table map, what it does, and what is left of that where a filter ignores its kind.
const STATEMENTS: &str = "\
CREATE TABLE t (a INT) => 0 more, Unsupported at 163 => 0 more
ALTER TABLE t ADD d INT => Statement 163 of 163 by 0; 1 more => 0 more
CREATE INDEX i ON t (v) => Statement 163 of 163 by 0; 1 more => 0 more
DROP INDEX i ON t => Statement 163 of 163 by 0; 1 more => 0 more
DROP TABLE t => 0 more, Unsupported at 163 => 0 more
TRUNCATE TABLE t => 0 more, Unsupported at 163 => 0 more
RENAME TABLE t TO w => 0 more, Unsupported at 163 => 0 more
";

/// Events of these kinds on `s`.`t` are ignored.
fn rules_of(alloc: Global, kinds: u16) -> Result<Rules, AllocError> {
    let pair = Pair {
        db: Pattern::new(alloc, b"s")?,
        table: Pattern::new(alloc, b"t")?,
    };
    let filters = vec![in alloc; FilterRule { pair, kinds }]?;
    Ok(Rules {
        allow: Sequence::new(Vec::new(alloc)),
        routes: Sequence::new(Vec::new(alloc)),
        filters: Sequence::new(filters),
    })
}

/// What a file's events do, and what they do where those of these kinds are ignored.
fn push_case(
    alloc: Global,
    text: &mut String,
    name: &str,
    file: &[u8],
    kinds: u16,
) -> Result<(), Fail> {
    write!(text, "{name} => ")?;
    write_one(alloc, text, &no_rules(alloc), CREATE, file)?;
    text.push_str(" => ")?;
    write_one(alloc, text, &rules_of(alloc, kinds)?, CREATE, file)?;
    text.push_str("\n")?;
    Ok(())
}

fn push_rows(
    alloc: Global,
    text: &mut String,
    name: &str,
    code: u8,
    body: &[u8],
    kinds: u16,
) -> Result<(), Fail> {
    let mut file = begin(alloc)?;
    push_event(&mut file, 19, TABLE_MAP)?;
    push_event(&mut file, code, body)?;
    push_case(alloc, text, name, &file, kinds)
}

fn rows(alloc: Global) -> Result<String, Fail> {
    let mut text = String::new(alloc);
    push_rows(alloc, &mut text, "insert", 30, WRITE, 1)?;
    push_rows(alloc, &mut text, "update", 31, UPDATE, 2)?;
    push_rows(alloc, &mut text, "delete", 32, WRITE, 4)?;
    Ok(text)
}

fn push_line(alloc: Global, text: &mut String, statement: &str, kinds: u16) -> Result<(), Fail> {
    let mut file = begin(alloc)?;
    push_event(&mut file, 19, TABLE_MAP)?;
    push_statement(alloc, &mut file, statement)?;
    push_case(alloc, text, statement, &file, kinds)
}

/// The kinds of statements have the bits from 8 on, in the lines' order.
fn statements(alloc: Global) -> Result<String, Fail> {
    let mut text = String::new(alloc);
    let mut kinds: u16 = 8;
    for line in STATEMENTS.lines() {
        push_line(alloc, &mut text, statement_in(line), kinds)?;
        kinds = kinds.saturating_mul(2);
    }
    Ok(text)
}

#[test]
fn ignores_rows(rt: HostRuntime) -> Result<(), Fail> {
    assert_eq!(rt; rows(rt.alloc())?.as_str(), ROWS);
    Ok(())
}

#[test]
fn ignores_statements(rt: HostRuntime) -> Result<(), Fail> {
    assert_eq!(rt; statements(rt.alloc())?.as_str(), STATEMENTS);
    Ok(())
}

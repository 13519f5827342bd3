//! Statements that end a shard's history, each at the event that begins at 123.

use super::{begin, no_rules, push_statement, statement_in, write_one};
use std::alloc::Global;
use std::fmt::Write;
use std::test::Fail;

const CREATE: &str = "CREATE TABLE t (id INT NOT NULL PRIMARY KEY, v VARCHAR(20), UNIQUE k (v))";

const EFFECTS: &str = "\
ALTER TABLE t ADD c INT FOO => 0 more, Syntax at 123
ALTER TABLE t ADD c TINYINT DEFAULT 300 => 0 more, Made at 123
ALTER TABLE t CHANGE v w VARCHAR(20) => 0 more, Renames at 123
ALTER TABLE t DROP PRIMARY KEY => 0 more, PrimaryChange at 123
ALTER TABLE t DROP w => 0 more, UnknownColumn at 123
ALTER TABLE t ADD v INT => 0 more, ColumnExists at 123
ALTER TABLE t DROP v => 0 more, KeyColumn at 123
ALTER TABLE t ADD c INT, DROP c => 0 more, Readd at 123
ALTER TABLE t MODIFY v INT => 0 more, FamilyChange at 123
ALTER TABLE t ADD c DATE NOT NULL => 0 more, NoFill at 123
ALTER TABLE t ADD UNIQUE k (id) => 0 more, KeyExists at 123
";

fn push_line(alloc: Global, text: &mut String, statement: &str) -> Result<(), Fail> {
    let mut file = begin(alloc)?;
    push_statement(alloc, &mut file, statement)?;
    write!(text, "{statement} => ")?;
    write_one(alloc, text, &no_rules(alloc), CREATE, &file)?;
    text.push_str("\n")?;
    Ok(())
}

fn lines(alloc: Global) -> Result<String, Fail> {
    let mut text = String::new(alloc);
    for line in EFFECTS.lines() {
        push_line(alloc, &mut text, statement_in(line))?;
    }
    Ok(text)
}

#[test]
fn ends_at_statements_without_an_effect(rt: HostRuntime) -> Result<(), Fail> {
    assert_eq!(rt; lines(rt.alloc())?.as_str(), EFFECTS);
    Ok(())
}

//! What was read of a statement, as a text.
use crate::{DdlFault, Head, Named, Statement, Tables, read_head, read_statement};
use dm_schema::{Change, Column, DefaultRule, Schema, Spot, UniqueKey};
use dm_value::{Day, Moment, Name, Names, Value};
use std::alloc::{AllocError, Global};

fn push_word(out: &mut Vec<u8>, word: &str, name: &Name) -> Result<(), AllocError> {
    out.extend_from_slice(word.as_bytes())?;
    out.extend_from_slice(name.as_slice())
}

fn push_named(out: &mut Vec<u8>, named: &Named) -> Result<(), AllocError> {
    if let Some(db) = &named.db {
        out.extend_from_slice(db.as_slice())?;
        out.push(b'.')?;
    }
    out.extend_from_slice(named.table.as_slice())
}

/// `(a,b)`.
fn push_names(out: &mut Vec<u8>, names: &Names) -> Result<(), AllocError> {
    let mut before = b'(';
    for name in names.as_slice() {
        out.push(before)?;
        out.extend_from_slice(name.as_slice())?;
        before = b',';
    }
    out.push(b')')?;
    Ok(())
}

fn push_day(alloc: Global, out: &mut Vec<u8>, day: &Day) -> Result<(), AllocError> {
    let Day { year, month, day } = day;
    out.extend_from_slice(format!(in alloc; "{year}-{month}-{day}")?.as_bytes())
}

fn push_moment(alloc: Global, out: &mut Vec<u8>, moment: &Moment) -> Result<(), AllocError> {
    let Moment {
        day,
        hour,
        minute,
        second,
        micros,
    } = moment;
    push_day(alloc, out, day)?;
    out.extend_from_slice(format!(in alloc; " {hour}:{minute}:{second} {micros}")?.as_bytes())
}

fn push_text(out: &mut Vec<u8>, text: &[u8]) -> Result<(), AllocError> {
    out.push(b'<')?;
    out.extend_from_slice(text)?;
    out.push(b'>')?;
    Ok(())
}

fn push_value(alloc: Global, out: &mut Vec<u8>, value: &Value) -> Result<(), AllocError> {
    match value {
        Value::Null => out.extend_from_slice(b"NULL"),
        Value::Int(number) => out.extend_from_slice(format!(in alloc; "{number}")?.as_bytes()),
        Value::Bytes(text) => push_text(out, text.as_slice()),
        Value::Dec(dec) => {
            let shown = format!(in alloc; "{}e-{}", dec.digits, dec.scale)?;
            out.extend_from_slice(shown.as_bytes())
        }
        Value::Date(day) => push_day(alloc, out, day),
        Value::Moment(moment) => push_moment(alloc, out, moment),
        Value::Stamp(stamp) => {
            let shown = format!(in alloc; "{} {}", stamp.seconds, stamp.micros)?;
            out.extend_from_slice(shown.as_bytes())
        }
    }
}

fn push_rule(alloc: Global, out: &mut Vec<u8>, rule: &DefaultRule) -> Result<(), AllocError> {
    match rule {
        DefaultRule::Nothing => Ok(()),
        DefaultRule::Now => out.extend_from_slice(b" DEFAULT now"),
        DefaultRule::Const(value) => {
            out.extend_from_slice(b" DEFAULT ")?;
            push_value(alloc, out, value)
        }
    }
}

fn push_column(alloc: Global, out: &mut Vec<u8>, column: &Column) -> Result<(), AllocError> {
    let kind = column.kind;
    let null = if column.nullable { "NULL" } else { "NOT NULL" };
    out.extend_from_slice(column.name.as_slice())?;
    out.extend_from_slice(format!(in alloc; " {kind:?} {null}")?.as_bytes())?;
    push_rule(alloc, out, &column.default_rule)
}

fn push_columns(alloc: Global, out: &mut Vec<u8>, columns: &[Column]) -> Result<(), AllocError> {
    for column in columns {
        push_column(alloc, out, column)?;
        out.extend_from_slice(b", ")?;
    }
    Ok(())
}

/// `unique k (a,b)`; a key without a name has two blanks.
fn push_key(out: &mut Vec<u8>, key: &UniqueKey) -> Result<(), AllocError> {
    push_word(out, "unique ", &key.name)?;
    out.push(b' ')?;
    push_names(out, &key.columns)
}

fn push_keys(out: &mut Vec<u8>, keys: &[UniqueKey]) -> Result<(), AllocError> {
    for key in keys {
        out.extend_from_slice(b", ")?;
        push_key(out, key)?;
    }
    Ok(())
}

fn push_schema(alloc: Global, out: &mut Vec<u8>, schema: &Schema) -> Result<(), AllocError> {
    push_columns(alloc, out, schema.columns())?;
    out.extend_from_slice(b"primary ")?;
    push_names(out, schema.primary())?;
    push_keys(out, schema.uniques())
}

fn push_spot(out: &mut Vec<u8>, spot: &Spot) -> Result<(), AllocError> {
    match spot {
        Spot::Keep => out.extend_from_slice(b" keep"),
        Spot::Last => out.extend_from_slice(b" last"),
        Spot::First => out.extend_from_slice(b" first"),
        Spot::After(name) => push_word(out, " after ", name),
    }
}

fn push_placed(
    alloc: Global,
    out: &mut Vec<u8>,
    word: &str,
    column: &Column,
    spot: &Spot,
) -> Result<(), AllocError> {
    out.extend_from_slice(word.as_bytes())?;
    push_column(alloc, out, column)?;
    push_spot(out, spot)
}

fn push_change(alloc: Global, out: &mut Vec<u8>, change: &Change) -> Result<(), AllocError> {
    match change {
        Change::Add { column, spot } => push_placed(alloc, out, "add ", column, spot),
        Change::Drop { name } => push_word(out, "drop ", name),
        Change::Modify {
            column,
            spot,
            null_written: false,
        } => push_placed(alloc, out, "modify ", column, spot),
        Change::Modify { column, spot, .. } => {
            push_placed(alloc, out, "modify with NULL ", column, spot)
        }
        Change::SetDefault { name, text } => {
            push_word(out, "default ", name)?;
            out.push(b' ')?;
            push_text(out, text.as_slice())
        }
        Change::AddUnique { key, named: true } => push_key(out, key),
        Change::AddUnique { key, .. } => {
            out.extend_from_slice(b"nameless ")?;
            push_key(out, key)
        }
        Change::DropKey { name } => push_word(out, "drop key ", name),
        Change::RenameKey { name } => push_word(out, "rename key ", name),
        Change::Refused { cause } => {
            out.extend_from_slice(format!(in alloc; "refused {cause:?}")?.as_bytes())
        }
        Change::NoEffect => out.extend_from_slice(b"no effect"),
    }
}

fn push_changes(alloc: Global, out: &mut Vec<u8>, changes: &[Change]) -> Result<(), AllocError> {
    let mut before = ": ";
    for change in changes {
        out.extend_from_slice(before.as_bytes())?;
        push_change(alloc, out, change)?;
        before = "; ";
    }
    Ok(())
}

fn push_created(out: &mut Vec<u8>, table: &Named, only_new: bool) -> Result<(), AllocError> {
    let word = if only_new { "create new " } else { "create " };
    out.extend_from_slice(word.as_bytes())?;
    push_named(out, table)
}

fn push_statement(alloc: Global, out: &mut Vec<u8>, read: &Statement) -> Result<(), AllocError> {
    match read {
        Statement::Create {
            table,
            schema,
            only_new,
        } => {
            push_created(out, table, *only_new)?;
            out.extend_from_slice(b": ")?;
            push_schema(alloc, out, schema)
        }
        Statement::Alter { table, changes } => {
            push_named(out, table)?;
            push_changes(alloc, out, changes.as_slice())
        }
        Statement::Other => out.extend_from_slice(b"Other"),
    }
}

fn push_fault(alloc: Global, out: &mut Vec<u8>, fault: &DdlFault) -> Result<(), AllocError> {
    let shown = match fault {
        DdlFault::Lex { at } => format!(in alloc; "Lex {at}")?,
        DdlFault::Syntax { at } => format!(in alloc; "Syntax {at}")?,
        DdlFault::Unsupported { at } => format!(in alloc; "Unsupported {at}")?,
        DdlFault::Made(fault) => format!(in alloc; "Made {fault:?}")?,
        DdlFault::Memory => format!(in alloc; "Memory")?,
    };
    out.extend_from_slice(shown.as_bytes())
}

fn push_tables(out: &mut Vec<u8>, word: &str, tables: &Tables) -> Result<(), AllocError> {
    out.extend_from_slice(word.as_bytes())?;
    for table in tables.as_slice() {
        out.push(b' ')?;
        push_named(out, table)?;
    }
    Ok(())
}

fn push_about(out: &mut Vec<u8>, word: &str, table: &Named) -> Result<(), AllocError> {
    out.extend_from_slice(word.as_bytes())?;
    push_named(out, table)
}

fn push_head(out: &mut Vec<u8>, head: &Head) -> Result<(), AllocError> {
    match head {
        Head::Create { table, only_new } => push_created(out, table, *only_new),
        Head::Alter(table) => push_about(out, "alter ", table),
        Head::CreateIndex(table) => push_about(out, "create index ", table),
        Head::DropIndex(table) => push_about(out, "drop index ", table),
        Head::DropTable(tables) => push_tables(out, "drop", tables),
        Head::Truncate(table) => push_about(out, "truncate ", table),
        Head::Rename(tables) => push_tables(out, "rename", tables),
        Head::RowStatement => out.extend_from_slice(b"rows"),
        Head::NotTable => out.extend_from_slice(b"no table"),
    }
}

/// What the text's statement says, or its fault.
pub fn push_read(alloc: Global, out: &mut Vec<u8>, text: &[u8]) -> Result<(), AllocError> {
    if text.len() >= 4_294_967_296 {
        return out.extend_from_slice(b"too long");
    }
    match read_statement(alloc, text) {
        Ok(statement) => push_statement(alloc, out, &statement),
        Err(fault) => push_fault(alloc, out, &fault),
    }
}

/// What the text's head says, or its fault.
pub fn push_read_head(alloc: Global, out: &mut Vec<u8>, text: &[u8]) -> Result<(), AllocError> {
    if text.len() >= 4_294_967_296 {
        return out.extend_from_slice(b"too long");
    }
    match read_head(alloc, text) {
        Ok(head) => push_head(out, &head),
        Err(fault) => push_fault(alloc, out, &fault),
    }
}

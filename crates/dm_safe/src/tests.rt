ghost use Rattle.std.specs.Prelude.{◌≡◌, ◌∷◌, [], IsTrue, IfOk};
ghost use Rattle.dm_schema.specs.Kinds.{is_column, is_folded};

use crate::{Mode, ops_of};
use dm_schema::{Column, DefaultRule, Kind, RowChange, Schema};
use dm_table::RowOp;
use dm_value::{Name, Names, Row, Value};
use std::alloc::{AllocError, Global};

fn name(alloc: Global, letter: u8) -> Result<Name, AllocError>
    ensures { IfOk result (λ name. name ≡ letter ∷ []) }
{
    Ok(Name::new(vec![in alloc; letter]?))
}

/// A column of type INT.
fn column(alloc: Global, letter: u8, nullable: bool) -> Result<Column, AllocError>
    requires { IsTrue (is_folded (letter ∷ [])) }
    ensures { IfOk result (λ column. IsTrue (is_column column)) }
{
    Ok(Column {
        name: name(alloc, letter)?,
        kind: Kind::Signed(4),
        nullable,
        default_rule: DefaultRule::Nothing,
    })
}

/// Columns `v` and `k`, the key, in this order.
fn schema(alloc: Global) -> Result<Option<Schema>, AllocError> {
    let v = column(alloc, b'v', true)?;
    let k = column(alloc, b'k', false)?;
    let columns = vec![in alloc; v, k]?;
    let primary = Names::new(vec![in alloc; name(alloc, b'k')?]?);
    Ok(Schema::new(columns, primary, Vec::new(alloc)).ok())
}

fn row(alloc: Global, v: i128, k: i128) -> Result<Row, AllocError> {
    Ok(Row::new(vec![in alloc; Value::Int(v), Value::Int(k)]?))
}

/// (10,1) is inserted, becomes (20,2), and is deleted.
fn changes(alloc: Global) -> Result<Vec<RowChange>, AllocError> {
    let mut changes = Vec::new(alloc);
    changes.push(RowChange::Insert(row(alloc, 10, 1)?))?;
    changes.push(RowChange::Update(row(alloc, 10, 1)?, row(alloc, 20, 2)?))?;
    changes.push(RowChange::Delete(row(alloc, 20, 2)?))?;
    Ok(changes)
}

fn push_names(out: &mut Vec<u8>, names: &Names) -> Result<(), AllocError> {
    for name in names.as_slice() {
        out.extend_from_slice(name.as_slice())?;
    }
    Ok(())
}

fn push_row(alloc: Global, out: &mut Vec<u8>, word: &str, row: &Row) -> Result<(), AllocError> {
    let values = row.as_slice();
    out.extend_from_slice(format!(in alloc; " {word} {values:?}")?.as_bytes())
}

/// The names of columns one after another, with the word before the values and that before the key.
fn push_op(alloc: Global, out: &mut Vec<u8>, op: &RowOp) -> Result<(), AllocError> {
    match op {
        RowOp::Insert { columns, row } => {
            push_names(out, columns)?;
            push_row(alloc, out, "insert", row)
        }
        RowOp::Replace { columns, row } => {
            push_names(out, columns)?;
            push_row(alloc, out, "replace", row)
        }
        RowOp::Update { columns, key, row } => {
            push_row(alloc, out, "at", key)?;
            push_names(out, columns)?;
            push_row(alloc, out, "update", row)
        }
        RowOp::Delete { key } => push_row(alloc, out, "delete", key),
        RowOp::Erase { key } => push_row(alloc, out, "erase", key),
    }
}

fn shown(alloc: Global, mode: Mode) -> Result<Vec<u8>, AllocError> {
    let mut out = Vec::new(alloc);
    let Some(schema) = schema(alloc)? else {
        return Ok(out);
    };
    let changes = changes(alloc)?;
    for op in &ops_of(alloc, &schema, &changes, mode)? {
        push_op(alloc, &mut out, op)?;
        out.push(b'\n')?;
    }
    Ok(out)
}

#[test]
fn carries_out_each_change_once(rt: HostRuntime) -> Result<(), AllocError> {
    let found = shown(rt.alloc(), Mode::Plain)?;
    let expected =
        "kv insert [Int(1), Int(10)]\n at [Int(1)]kv update [Int(2), Int(20)]\n delete [Int(2)]\n";
    assert_eq!(rt; found.as_slice(), expected.as_bytes());
    Ok(())
}

#[test]
fn carries_out_changes_again(rt: HostRuntime) -> Result<(), AllocError> {
    let found = shown(rt.alloc(), Mode::Safe)?;
    let expected =
        "kv replace [Int(1), Int(10)]\n erase [Int(1)]\nkv replace [Int(2), Int(20)]\n erase [Int(2)]\n";
    assert_eq!(rt; found.as_slice(), expected.as_bytes());
    Ok(())
}

ghost use Rattle.std.specs.Prelude.{◌≡◌, IfOk, IsTrue};
ghost use Rattle.std.specs.List.{list_all};
ghost use Rattle.dm_schema.specs.Kinds.{is_column, is_folded};
ghost use Rattle.dm_target.specs.Writing.{IsProper};

use crate::{Blow, Call, FuseTarget, MemoryTarget, Meta, Target, TargetError, is_proper};
use dm_list::{Bytes, Sequence};
use dm_schema::{Column, DefaultRule, Kind, Schema, TableName};
use dm_table::{RowOp, TableFault};
use dm_value::{Name, Names, Row, Rows, Value};
use std::alloc::{AllocError, Global};
use std::test::Fail;

/// Calls on an empty target in memory behind a fuse, with their answers and what there is then: the tables, the rows of
/// the table `t`, those of its rows that are at most one from the place 1 on, and the text of `k`.
///
/// `C` creates the table `t` with the column `id`, and `A` gives it a second one, `INT DEFAULT 5`. `I1` inserts the row of
/// the `id` 1. `M` sets the text 1, `N` 2, and `O` at once 3 and 4. Behind a `=` stand the numbers of the calls that are
/// to fail, with a `+` where they take their effect and a `-` where they don't. Once a call has failed, none is made.
const CASES: &str = "\
C I1 I2 I3 => + + + + [ d.t] [ 1 2 3] [ 2] []
C I1 A I2 => + + + + [ d.t] [ 15 25] [ 25] []
C C => + TableExists [ d.t] [] [] []
A => NoTable [] [] [] []
I1 => NoTable [] [] [] []
C I1 I1 => + + Rejected [ d.t] [ 1] [] []
M N => + + [] [] [] [2]
O => + [] [] [] [4]
Z => no [] [] [] []
C A A => + + no [ d.t] [] [] []
=1- C M => Failed no [] [] [] []
=1+ C M => Failed no [ d.t] [] [] []
=2- C A => + Failed [ d.t] [] [] []
=2- M N => + Failed [] [] [] [1]
=2+ M N => + Failed [] [] [] [2]
=2+2- M N => + Failed [] [] [] [2]
=2-2+ M N => + Failed [] [] [] [1]
=3- C I1 A => + + Failed [ d.t] [ 1] [] []
=3+ C I1 A => + + Failed [ d.t] [ 15] [] []
=3- C I1 I2 => + + Failed [ d.t] [ 1] [] []
=3+ C I1 I2 => + + Failed [ d.t] [ 1 2] [ 2] []
=1+ A => Failed [] [] [] []
=3+ M N => + + [] [] [] [2]
";

fn bytes(alloc: Global, text: &str) -> Result<Bytes, AllocError> {
    Ok(Bytes::new(text.as_bytes().to_vec(alloc)?))
}

fn name(alloc: Global, text: &str) -> Result<Name, AllocError>
    ensures { IfOk result (λ name. name ≡ text.now) }
{
    Ok(Name::new(text.as_bytes().to_vec(alloc)?))
}

fn one_name(alloc: Global, text: &str) -> Result<Names, AllocError> {
    Ok(Names::new(vec![in alloc; name(alloc, text)?]?))
}

fn table_name(alloc: Global) -> Result<TableName, AllocError> {
    Ok(TableName {
        db: name(alloc, "d")?,
        table: name(alloc, "t")?,
    })
}

fn column(alloc: Global, text: &str) -> Result<Column, AllocError>
    requires { IsTrue (is_folded text.now) }
    ensures { IfOk result (λ column. IsTrue (is_column column)) }
{
    Ok(Column {
        name: name(alloc, text)?,
        kind: Kind::Signed(8),
        nullable: false,
        default_rule: DefaultRule::Nothing,
    })
}

/// `u` INT DEFAULT 5.
fn second_column(alloc: Global) -> Result<Column, AllocError>
    ensures { IfOk result (λ column. IsTrue (is_column column)) }
{
    Ok(Column {
        name: name(alloc, "u")?,
        kind: Kind::Signed(4),
        nullable: true,
        default_rule: DefaultRule::Const(Value::Int(5)),
    })
}

fn columns(alloc: Global, is_wide: bool) -> Result<Vec<Column>, AllocError>
    ensures { IfOk result (λ columns. IsTrue (list_all is_column columns.items)) }
{
    let id = column(alloc, "id")?;
    if !is_wide {
        return Ok(vec![in alloc; id]?);
    }
    Ok(vec![in alloc; id, second_column(alloc)?]?)
}

fn schema(alloc: Global, is_wide: bool) -> Result<Schema, Fail> {
    let id = one_name(alloc, "id")?;
    Ok(Schema::new(columns(alloc, is_wide)?, id, Vec::new(alloc))?)
}

fn insert(alloc: Global, sign: u8) -> Result<RowOp, AllocError> {
    let row = vec![in alloc; Value::Int(i128::from(sign) - 48)]?;
    Ok(RowOp::Insert {
        columns: one_name(alloc, "id")?,
        row: Row::new(row),
    })
}

fn meta(alloc: Global, text: &str) -> Result<Meta, AllocError> {
    Ok(Meta {
        name: bytes(alloc, "k")?,
        text: bytes(alloc, text)?,
    })
}

fn metas(alloc: Global, word: &[u8]) -> Result<Vec<Meta>, AllocError> {
    Ok(match word {
        [b'M'] => vec![in alloc; meta(alloc, "1")?]?,
        [b'N'] => vec![in alloc; meta(alloc, "2")?]?,
        [b'Z'] => Vec::new(alloc),
        _ => vec![in alloc; meta(alloc, "3")?, meta(alloc, "4")?]?,
    })
}

fn creation(alloc: Global) -> Result<Call, Fail> {
    Ok(Call::Create {
        table: table_name(alloc)?,
        schema: schema(alloc, false)?,
    })
}

fn alteration(alloc: Global) -> Result<Call, Fail> {
    Ok(Call::Alter {
        table: table_name(alloc)?,
        schema: schema(alloc, true)?,
    })
}

fn insertion(alloc: Global, sign: u8) -> Result<Call, AllocError> {
    let ops = vec![in alloc; insert(alloc, sign)?]?;
    Ok(Call::Apply {
        table: table_name(alloc)?,
        ops: Sequence::new(ops),
    })
}

fn call_of(alloc: Global, word: &[u8]) -> Result<Call, Fail> {
    match word {
        [b'C'] => creation(alloc),
        [b'A'] => alteration(alloc),
        [b'I', sign] => Ok(insertion(alloc, *sign)?),
        _ => Ok(Call::Metas {
            pairs: Sequence::new(metas(alloc, word)?),
        }),
    }
}

fn made<T: Target>(alloc: Global, target: &mut T, call: &Call) -> Result<(), TargetError>
    requires sound { IsTrue (T.sound target.old) }
    requires proper { IsProper call.now (T.content target.old) }
{
    match call {
        Call::Create { table, schema } => target.create(alloc, table, schema),
        Call::Alter { table, schema } => target.alter(alloc, table, schema),
        Call::Apply { table, ops } => target.apply(alloc, table, ops.as_slice()),
        Call::Metas { pairs } => target.put_meta(alloc, pairs.as_slice()),
    }
}

/// A call that may not be made has no answer.
fn call<T: Target>(
    alloc: Global,
    target: &mut T,
    word: &[u8],
) -> Result<Option<Result<(), TargetError>>, Fail> {
    if !target.is_sound() {
        return Ok(None);
    }
    let call = call_of(alloc, word)?;
    if !is_proper(alloc, target, &call)? {
        return Ok(None);
    }
    Ok(Some(made(alloc, target, &call)))
}

fn text_of(answer: &Option<Result<(), TargetError>>) -> &'static str {
    match answer {
        None => " no",
        Some(Ok(())) => " +",
        Some(Err(TargetError::Rejected(TableFault::NoTable))) => " NoTable",
        Some(Err(TargetError::Rejected(TableFault::TableExists))) => " TableExists",
        Some(Err(TargetError::Rejected(_))) => " Rejected",
        Some(Err(TargetError::Failed)) => " Failed",
        Some(Err(TargetError::Full)) | Some(Err(TargetError::Memory)) => " ?",
    }
}

fn push_rows(alloc: Global, out: &mut Vec<u8>, rows: &Rows) -> Result<(), AllocError> {
    for row in rows.as_slice() {
        out.push(b' ')?;
        push_row(alloc, out, row)?;
    }
    Ok(())
}

fn push_row(alloc: Global, out: &mut Vec<u8>, row: &Row) -> Result<(), AllocError> {
    for value in row.as_slice() {
        if let Value::Int(number) = value {
            out.extend_from_slice(format!(in alloc; "{number}")?.as_bytes())?;
        }
    }
    Ok(())
}

fn push_tables(alloc: Global, out: &mut Vec<u8>, target: &MemoryTarget) -> Result<(), AllocError> {
    for table in &target.tables(alloc)? {
        out.push(b' ')?;
        out.extend_from_slice(table.db.as_slice())?;
        out.push(b'.')?;
        out.extend_from_slice(table.table.as_slice())?;
    }
    Ok(())
}

fn push_rows_from(
    alloc: Global,
    out: &mut Vec<u8>,
    target: &MemoryTarget,
    place: u64,
    count: u32,
) -> Result<(), AllocError> {
    let table = table_name(alloc)?;
    let rows = target.rows_from(alloc, &table, place, count)?;
    push_rows(alloc, out, &rows)
}

/// The texts of the names that there are.
fn push_metas(alloc: Global, out: &mut Vec<u8>, target: &MemoryTarget) -> Result<(), AllocError> {
    for name in &target.metas(alloc)? {
        if let Some(text) = target.meta(name.as_slice()) {
            out.extend_from_slice(text.as_slice())?;
        }
    }
    Ok(())
}

fn push_content(alloc: Global, out: &mut Vec<u8>, target: &MemoryTarget) -> Result<(), AllocError> {
    out.extend_from_slice(b" [")?;
    push_tables(alloc, out, target)?;
    out.extend_from_slice(b"] [")?;
    push_rows_from(alloc, out, target, 0, 9)?;
    out.extend_from_slice(b"] [")?;
    push_rows_from(alloc, out, target, 1, 1)?;
    out.extend_from_slice(b"] [")?;
    push_metas(alloc, out, target)?;
    out.extend_from_slice(b"]")
}

fn blows(alloc: Global, signs: &[u8]) -> Result<Vec<Blow>, AllocError> {
    let mut blows = Vec::new(alloc);
    for pair in signs.chunks(2) {
        if let [call, sign] = pair {
            blows.push(Blow {
                call: u64::from(call.saturating_sub(b'0')),
                done: *sign == b'+',
            })?;
        }
    }
    Ok(blows)
}

/// What is to fail, and the calls.
fn parts(words: &str) -> (&str, &str) {
    match words.strip_prefix("=") {
        Some(words) => words.split_once(" ").unwrap_or((words, "")),
        None => ("", words),
    }
}

fn push_answers<T: Target>(
    alloc: Global,
    out: &mut Vec<u8>,
    target: &mut T,
    calls: &str,
) -> Result<(), Fail> {
    for word in calls.split(' ') {
        let answer = call(alloc, target, word.as_bytes())?;
        out.extend_from_slice(text_of(&answer).as_bytes())?;
    }
    Ok(())
}

fn push_line(alloc: Global, out: &mut Vec<u8>, words: &str) -> Result<(), Fail> {
    let (failing, calls) = parts(words);
    let failing = blows(alloc, failing.as_bytes())?;
    let mut target = FuseTarget::new(MemoryTarget::new(alloc), failing);
    push_answers(alloc, out, &mut target, calls)?;
    push_content(alloc, out, &target.into_inner())?;
    Ok(())
}

fn words_in(line: &str) -> &str {
    match line.split_once(" =>") {
        Some((words, _)) => words,
        None => line,
    }
}

fn found(alloc: Global) -> Result<Vec<u8>, Fail> {
    let mut out = Vec::new(alloc);
    for line in CASES.lines() {
        let words = words_in(line);
        out.extend_from_slice(words.as_bytes())?;
        out.extend_from_slice(b" =>")?;
        push_line(alloc, &mut out, words)?;
        out.push(b'\n')?;
    }
    Ok(out)
}

#[test]
fn calls_happen_whole_or_not_at_all(rt: HostRuntime) -> Result<(), Fail> {
    let found = found(rt.alloc())?;
    assert_eq!(rt; str::from_utf8(&found)?, CASES);
    Ok(())
}

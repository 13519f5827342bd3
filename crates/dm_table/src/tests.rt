ghost use Rattle.std.specs.Prelude.{◌≡◌, IfOk, IsTrue};
ghost use Rattle.std.specs.List.{list_all};
ghost use Rattle.dm_schema.specs.Kinds.{is_column, is_folded, is_key, is_kind, is_rule};

use crate::{RowOp, Table, TableFault};
use dm_list::Bytes;
use dm_schema::{Column, DefaultRule, Kind, Schema, UniqueKey};
use dm_value::{Name, Names, Row, Value};
use std::alloc::{AllocError, Global};
use std::test::Fail;

/// Operations on a table that has the row (1,5), with what comes of them. `I` inserts, `R` replaces, `D` deletes and `E`
/// erases; `U` updates the row of the key that stands first, and `V` its column `u` alone. `X` inserts with the column
/// `x` alone, `O` with `u` alone. `N` is NULL, and `t` a text. Behind a `/` the table gets another schema: `s` is the one
/// that it has, `d` has a third column, `INT DEFAULT 5`, and no unique key; `q` has it as a unique key; `p` has another
/// primary key, and in `k` the column `u` is a text.
const CASES: &str = "\
I25 => Duplicate 1: 15
I16 => Duplicate 0: 15
I2N I3N => 15 2N 3N
R25 => 25
R1N => 1N
U126 => 26
V17 => 17
U926 => Missing: 15
I26 U126 => Duplicate 0: 15
I26 V25 => Duplicate 1: 15
I26 D9 => Missing: 15
I26 D1 => 26
E9 => 15
E1 =>
X1 => UnknownColumn x: 15
I2t => Unfit u: 15
O6 => Unfit id: 15
I15 X1 => Duplicate 0: 15
D1 I25 => 25
V16 I25 => 16 25
V1N I25 => 1N 25
I26 V1N V25 V16 => 16 25
I26 V1N I35 V26 V15 => Duplicate 1: 15
/s I25 => Duplicate 1: 15
/s V16 I25 => 16 25
/d => 155
I2N /q => Duplicate 1: 15 2N
/p => PrimaryDiffers: 15
/k => Unfit u: 15
";

fn name(alloc: Global, text: &str) -> Result<Name, AllocError>
    ensures { IfOk result (λ name. name ≡ text.now) }
{
    Ok(Name::new(text.as_bytes().to_vec(alloc)?))
}

fn one_name(alloc: Global, text: &str) -> Result<Names, AllocError> {
    Ok(Names::new(vec![in alloc; name(alloc, text)?]?))
}

fn both_names(alloc: Global) -> Result<Names, AllocError> {
    Ok(Names::new(vec![in alloc; name(alloc, "id")?, name(alloc, "u")?]?))
}

fn column(alloc: Global, text: &str, kind: Kind, nullable: bool) -> Result<Column, AllocError>
    requires name { IsTrue (is_folded text.now) }
    requires kind { IsTrue (is_kind kind) }
    ensures { IfOk result (λ column. IsTrue (is_column column)) }
{
    Ok(Column {
        name: name(alloc, text)?,
        kind,
        nullable,
        default_rule: DefaultRule::Nothing,
    })
}

/// `d` INT DEFAULT 5.
fn third_column(alloc: Global) -> Result<Column, AllocError>
    ensures { IfOk result (λ column. IsTrue (is_column column)) }
{
    Ok(Column {
        name: name(alloc, "d")?,
        kind: Kind::Signed(4),
        nullable: true,
        default_rule: DefaultRule::Const(Value::Int(5)),
    })
}

/// `id` BIGINT NOT NULL, and `u` of a kind.
fn two_columns(alloc: Global, kind: Kind, nullable: bool) -> Result<Vec<Column>, AllocError>
    requires { IsTrue (is_kind kind) }
    ensures { IfOk result (λ columns. IsTrue (list_all is_column columns.items)) }
{
    let id = column(alloc, "id", Kind::Signed(8), false)?;
    let u = column(alloc, "u", kind, nullable)?;
    Ok(vec![in alloc; id, u]?)
}

fn three_columns(alloc: Global) -> Result<Vec<Column>, AllocError>
    ensures { IfOk result (λ columns. IsTrue (list_all is_column columns.items)) }
{
    let id = column(alloc, "id", Kind::Signed(8), false)?;
    let u = column(alloc, "u", Kind::Signed(8), true)?;
    Ok(vec![in alloc; id, u, third_column(alloc)?]?)
}

/// The unique key of one column.
fn unique(alloc: Global, text: &str) -> Result<Vec<UniqueKey>, AllocError>
    requires { IsTrue (is_folded text.now) }
    ensures { IfOk result (λ keys. IsTrue (list_all is_key keys.items)) }
{
    let key = UniqueKey {
        name: name(alloc, text)?,
        columns: Names::new(vec![in alloc; name(alloc, text)?]?),
    };
    Ok(vec![in alloc; key]?)
}

fn schema_of(alloc: Global, sign: u8) -> Result<Schema, Fail> {
    let id = one_name(alloc, "id")?;
    let number = Kind::Signed(8);
    Ok(match sign {
        b'd' => Schema::new(three_columns(alloc)?, id, Vec::new(alloc))?,
        b'q' => Schema::new(three_columns(alloc)?, id, unique(alloc, "d")?)?,
        b'p' => Schema::new(
            two_columns(alloc, number, false)?,
            one_name(alloc, "u")?,
            Vec::new(alloc),
        )?,
        b'k' => Schema::new(
            two_columns(alloc, Kind::Varchar(9), true)?,
            id,
            Vec::new(alloc),
        )?,
        _ => Schema::new(two_columns(alloc, number, true)?, id, unique(alloc, "u")?)?,
    })
}

fn value(alloc: Global, sign: u8) -> Result<Value, AllocError> {
    Ok(match sign {
        b'N' => Value::Null,
        b't' => Value::Bytes(Bytes::new(vec![in alloc; b't']?)),
        _ => Value::Int(i128::from(sign) - 48),
    })
}

fn row_of(alloc: Global, signs: &[u8]) -> Result<Row, AllocError> {
    let mut values = Vec::new(alloc);
    for sign in signs {
        values.push(value(alloc, *sign)?)?;
    }
    Ok(Row::new(values))
}

fn op_of(alloc: Global, word: &[u8]) -> Result<Option<RowOp>, AllocError> {
    Ok(match word {
        [b'I', row @ ..] => Some(RowOp::Insert {
            columns: both_names(alloc)?,
            row: row_of(alloc, row)?,
        }),
        [b'R', row @ ..] => Some(RowOp::Replace {
            columns: both_names(alloc)?,
            row: row_of(alloc, row)?,
        }),
        [b'U', key, row @ ..] => Some(RowOp::Update {
            columns: both_names(alloc)?,
            key: row_of(alloc, &[*key])?,
            row: row_of(alloc, row)?,
        }),
        [b'V', key, row @ ..] => Some(RowOp::Update {
            columns: one_name(alloc, "u")?,
            key: row_of(alloc, &[*key])?,
            row: row_of(alloc, row)?,
        }),
        [b'D', key @ ..] => Some(RowOp::Delete {
            key: row_of(alloc, key)?,
        }),
        [b'E', key @ ..] => Some(RowOp::Erase {
            key: row_of(alloc, key)?,
        }),
        [b'X', row @ ..] => Some(RowOp::Insert {
            columns: one_name(alloc, "x")?,
            row: row_of(alloc, row)?,
        }),
        [b'O', row @ ..] => Some(RowOp::Insert {
            columns: one_name(alloc, "u")?,
            row: row_of(alloc, row)?,
        }),
        _ => None,
    })
}

fn ops_of(alloc: Global, words: &str) -> Result<Vec<RowOp>, AllocError> {
    let mut ops = Vec::new(alloc);
    for word in words.split(' ') {
        if let Some(op) = op_of(alloc, word.as_bytes())? {
            ops.push(op)?;
        }
    }
    Ok(ops)
}

/// The table with the row (1,5).
fn begun(alloc: Global) -> Result<Table, Fail> {
    let mut table = Table::new(alloc, schema_of(alloc, b's')?);
    let ops = ops_of(alloc, "I15")?;
    table.apply(alloc, &ops)?;
    Ok(table)
}

fn push_fault(alloc: Global, out: &mut Vec<u8>, fault: &TableFault) -> Result<(), AllocError> {
    match fault {
        TableFault::UnknownColumn { column } => push_named(out, b" UnknownColumn ", column),
        TableFault::Unfit { column } => push_named(out, b" Unfit ", column),
        TableFault::Duplicate { key } => {
            out.extend_from_slice(format!(in alloc; " Duplicate {key}:")?.as_bytes())
        }
        TableFault::Missing => out.extend_from_slice(b" Missing:"),
        TableFault::PrimaryDiffers => out.extend_from_slice(b" PrimaryDiffers:"),
        TableFault::NoTable | TableFault::TableExists | TableFault::Memory => out.extend_from_slice(
            b" ?",
        ),
    }
}

fn push_named(out: &mut Vec<u8>, fault: &[u8], column: &Name) -> Result<(), AllocError> {
    out.extend_from_slice(fault)?;
    out.extend_from_slice(column.as_slice())?;
    out.extend_from_slice(b":")
}

fn push_row(alloc: Global, out: &mut Vec<u8>, row: &Row) -> Result<(), AllocError> {
    out.push(b' ')?;
    for value in row.as_slice() {
        match value {
            Value::Null => out.push(b'N')?,
            Value::Int(number) => out.extend_from_slice(format!(in alloc; "{number}")?.as_bytes())?,
            _ => out.push(b't')?,
        }
    }
    Ok(())
}

fn push_rows(alloc: Global, out: &mut Vec<u8>, table: &Table) -> Result<(), AllocError> {
    for row in table.rows_from(alloc, 0, 9)?.as_slice() {
        push_row(alloc, out, row)?;
    }
    Ok(())
}

fn changed(alloc: Global, table: &mut Table, words: &str) -> Result<(), TableFault> {
    let ops = ops_of(alloc, words)?;
    table.apply(alloc, &ops)
}

/// What comes of the words before a `/`, then of the schema of the sign behind it, and of the words behind that.
fn push_changes(alloc: Global, out: &mut Vec<u8>, words: &str) -> Result<(), Fail> {
    let mut table = begun(alloc)?;
    let (before, behind) = match words.split_once("/") {
        Some(parts) => parts,
        None => (words, ""),
    };
    push_changed(alloc, out, &mut table, before)?;
    push_altered(alloc, out, &mut table, behind.as_bytes())?;
    push_changed(alloc, out, &mut table, behind)?;
    push_rows(alloc, out, &table)?;
    Ok(())
}

fn push_changed(
    alloc: Global,
    out: &mut Vec<u8>,
    table: &mut Table,
    words: &str,
) -> Result<(), Fail> {
    if let Err(fault) = changed(alloc, table, words) {
        push_fault(alloc, out, &fault)?;
    }
    Ok(())
}

fn push_altered(
    alloc: Global,
    out: &mut Vec<u8>,
    table: &mut Table,
    words: &[u8],
) -> Result<(), Fail> {
    let [sign, ..] = words else {
        return Ok(());
    };
    let schema = schema_of(alloc, *sign)?;
    if let Err(fault) = table.alter(alloc, &schema) {
        push_fault(alloc, out, &fault)?;
    }
    Ok(())
}

fn push_line(alloc: Global, out: &mut Vec<u8>, words: &str) -> Result<(), Fail> {
    out.extend_from_slice(words.as_bytes())?;
    out.extend_from_slice(b" =>")?;
    push_changes(alloc, out, words)?;
    out.push(b'\n')?;
    Ok(())
}

fn words_in(line: &str) -> &str {
    match line.split_once(" =>") {
        Some((words, _)) => words,
        None => line,
    }
}

fn found(alloc: Global) -> Result<Vec<u8>, Fail> {
    let mut out = Vec::new(alloc);
    for line in CASES.lines() {
        push_line(alloc, &mut out, words_in(line))?;
    }
    Ok(out)
}

#[test]
fn changes_whole_or_not_at_all(rt: HostRuntime) -> Result<(), Fail> {
    let found = found(rt.alloc())?;
    assert_eq!(rt; str::from_utf8(&found)?, CASES);
    Ok(())
}

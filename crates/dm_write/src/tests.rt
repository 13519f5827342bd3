ghost use Rattle.std.specs.Prelude.{◌≡◌, IfOk, IsTrue};
ghost use Rattle.std.specs.List.{list_all};
ghost use Rattle.std.specs.Cmp.Lexicographic.{pointwise};
ghost use Rattle.dm_schema.specs.Fits.{fits};
ghost use Rattle.dm_schema.specs.Kinds.{is_column, is_folded};

use crate::write_dump;
use dm_schema::{Column, DefaultRule, Kind, Names, Schema, SchemaFault, fits};
use dm_value::{Name, Row, Rows, Value};
use std::alloc::{AllocError, Global};
use std::test::Fail;

fn name(alloc: Global, text: &str) -> Result<Name, AllocError>
    ensures { IfOk result (λ name. name ≡ text.now) }
{
    Ok(Name::new(text.as_bytes().to_vec(alloc)?))
}

fn column(alloc: Global, text: &str, kind: Kind, nullable: bool) -> Result<Column, AllocError>
    requires { IsTrue (is_folded text.now) }
    ensures { IfOk result (λ c. (c.name ≡ text.now) × (c.kind ≡ kind) × (c.default_rule ≡ DefaultRule.Nothing)) }
{
    Ok(Column {
        name: name(alloc, text)?,
        kind,
        nullable,
        default_rule: DefaultRule::Nothing,
    })
}

fn columns(alloc: Global) -> Result<Vec<Column>, AllocError>
    ensures { IfOk result (λ columns. IsTrue (list_all is_column columns.items)) }
{
    let id = column(alloc, "id", Kind::Signed(4), false)?;
    let v = column(alloc, "v", Kind::Varchar(20), true)?;
    Ok(vec![in alloc; id, v]?)
}

/// `id` INT NOT NULL PRIMARY KEY, `v` VARCHAR(20).
fn table(alloc: Global) -> Result<Result<Schema, SchemaFault>, AllocError> {
    let primary = Names::new(vec![in alloc; name(alloc, "id")?]?);
    Ok(Schema::new(columns(alloc)?, primary, Vec::new(alloc)))
}

/// Whether each value fits its column.
fn row_fits(row: &[Value], columns: &[Column]) -> bool
    requires { IsTrue (list_all is_column columns.now) }
    ensures { result ≡ pointwise fits row.now columns.now }
{
    match (row, columns) {
        ([], []) => true,
        ([value, row @ ..], [column, columns @ ..]) => {
            fits(value, column) && row_fits(row, columns)
        }
        _ => false,
    }
}

/// A row of the table.
fn row(alloc: Global, id: i128, v: Value) -> Result<Row, AllocError> {
    Ok(Row::new(vec![in alloc; Value::Int(id), v]?))
}

/// Whether each value of each row fits its column.
fn rows_fit(rows: &[Row], columns: &[Column]) -> bool
    requires { IsTrue (list_all is_column columns.now) }
    ensures { result ≡ list_all (λ row. pointwise fits row columns.now) rows.now }
{
    match rows {
        [] => true,
        [row, rows @ ..] => row_fits(row.as_slice(), columns) && rows_fit(rows, columns),
    }
}

fn dump_bytes(alloc: Global, schema: &Schema, rows: &Rows) -> Result<Vec<u8>, Fail> {
    if !rows_fit(rows.as_slice(), schema.columns()) {
        return Err("no rows of the schema")?;
    }
    let table = name(alloc, "t")?;
    Ok(write_dump(alloc, &table, schema, rows)?)
}

fn two_rows(alloc: Global) -> Result<Rows, AllocError> {
    let x = Value::Bytes(dm_schema::Bytes::new([b'x'].to_vec(alloc)?));
    let first = row(alloc, 1, x)?;
    let second = row(alloc, 2, Value::Null)?;
    Ok(Rows::new(vec![in alloc; first, second]?))
}

#[test]
fn writes_a_dump(rt: HostRuntime) -> Result<(), Fail> {
    let alloc = rt.alloc();
    let schema = table(alloc)?.map_err(|_| "no schema")?;
    let text = dump_bytes(alloc, &schema, &two_rows(alloc)?)?;
    let want = b"CREATE TABLE `t` (`id` INT NOT NULL, `v` VARCHAR(20) NULL, PRIMARY KEY (`id`));\n\
        INSERT INTO `t` VALUES (1,'x'),(2,NULL);\n";
    assert_eq!(rt; text.as_slice(), want.as_slice());
    Ok(())
}

#[test]
fn a_dump_without_rows_has_one_line(rt: HostRuntime) -> Result<(), Fail> {
    let alloc = rt.alloc();
    let schema = table(alloc)?.map_err(|_| "no schema")?;
    let text = dump_bytes(alloc, &schema, &Rows::new(Vec::new(alloc)))?;
    let want = b"CREATE TABLE `t` (`id` INT NOT NULL, `v` VARCHAR(20) NULL, PRIMARY KEY (`id`));\n";
    assert_eq!(rt; text.as_slice(), want.as_slice());
    Ok(())
}

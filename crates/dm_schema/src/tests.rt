ghost use Rattle.std.specs.Prelude.{◌≡◌, IfOk, IsTrue};
ghost use Rattle.std.specs.List.{list_all};
ghost use Rattle.dm_schema.specs.Kinds.{is_column, is_kind, is_folded};

use crate::{
    Column, Copied, Dec, DefaultRule, Kind, Name, Names, Row, RowChange, Schema, Value, fill,
    fill_for_missing, fits, in_name_order, key_of, keys_of,
};
use std::alloc::{AllocError, Global};
use std::test::Fail;

fn name(alloc: Global, text: &str) -> Result<Name, AllocError>
    ensures { IfOk result (λ name. name ≡ text.now) }
{
    Ok(Name::new(text.as_bytes().to_vec(alloc)?))
}

fn names(alloc: Global, text: &str) -> Result<Names, AllocError> {
    Ok(Names::new(vec![in alloc; name(alloc, text)?]?))
}

fn column(alloc: Global, text: &str, kind: Kind, nullable: bool) -> Result<Column, AllocError>
    requires name { IsTrue (is_folded text.now) }
    requires kind { IsTrue (is_kind kind) }
    ensures { IfOk result (λ column. IsTrue (is_column column)) }
{
    Ok(Column {
        name: name(alloc, text)?,
        kind,
        nullable,
        default_rule: DefaultRule::Nothing,
    })
}

fn columns(alloc: Global) -> Result<Vec<Column>, AllocError>
    ensures { IfOk result (λ columns. IsTrue (list_all is_column columns.items)) }
{
    let id = column(alloc, "id", Kind::Signed(4), false)?;
    let u = column(alloc, "u", Kind::Signed(4), true)?;
    Ok(vec![in alloc; id, u]?)
}

/// `id` INT NOT NULL PRIMARY KEY, `u` INT.
fn table(alloc: Global) -> Result<Schema, Fail> {
    Ok(Schema::new(columns(alloc)?, names(alloc, "id")?, Vec::new(alloc))?)
}

fn row(alloc: Global, id: i128, u: i128) -> Result<Row, AllocError> {
    Ok(Row::new(vec![in alloc; Value::Int(id), Value::Int(u)]?))
}

/// Whether the value fits a column of the kind that isn't nullable.
fn is_one(alloc: Global, kind: Kind, value: Value) -> Result<bool, AllocError>
    requires { IsTrue (is_kind kind) }
{
    Ok(fits(&value, &column(alloc, "c", kind, false)?))
}

#[test]
fn values_fit_their_kinds(rt: HostRuntime) -> Result<(), Fail> {
    let alloc = rt.alloc();
    assert!(rt; is_one(alloc, Kind::Unsigned(1), Value::Int(255))?);
    assert!(rt; !is_one(alloc, Kind::Signed(1), Value::Int(255))?);
    assert!(rt; is_one(alloc, Kind::Year, Value::Int(0))?);
    assert!(rt; !is_one(alloc, Kind::Year, Value::Int(1900))?);
    assert!(rt; !is_one(alloc, Kind::Year, Value::Null)?);
    Ok(())
}

#[test]
fn decimals_fit_by_their_digits(rt: HostRuntime) -> Result<(), Fail> {
    let alloc = rt.alloc();
    for (digits, scale, want) in [
        (999, 2, true),
        (-999, 2, true),
        (1000, 2, false),
        (9, 1, false),
    ] {
        let value = Value::Dec(Dec { digits, scale });
        let found = is_one(alloc, Kind::Decimal(3, 2), value)?;
        assert_eq!(rt; found, want, "{digits} of scale {scale}");
    }
    Ok(())
}

#[test]
fn columns_are_filled(rt: HostRuntime) -> Result<(), Fail> {
    let alloc = rt.alloc();
    let flag = column(alloc, "f", Kind::Signed(1), false)?;
    assert_eq!(rt; fill(alloc, &flag)?, Some(Value::Int(0)));
    assert_eq!(rt; fill_for_missing(alloc, &flag)?, None);
    let note = column(alloc, "n", Kind::Varchar(9), true)?;
    assert_eq!(rt; fill(alloc, &note)?, Some(Value::Null));
    assert_eq!(rt; fill_for_missing(alloc, &note)?, Some(Value::Null));
    let day = column(alloc, "d", Kind::Date, false)?;
    assert_eq!(rt; fill(alloc, &day)?, None);
    Ok(())
}

#[test]
fn an_update_has_keys_of_both_rows(rt: HostRuntime) -> Result<(), Fail> {
    let alloc = rt.alloc();
    let table = table(alloc)?;
    let change = RowChange::Update(row(alloc, 1, 5)?, row(alloc, 2, 5)?);
    let keys = keys_of(alloc, &table, &change)?;
    assert_eq!(rt; keys.len(), 2);
    let old = key_of(alloc, &table, &row(alloc, 1, 5)?)?;
    assert_eq!(rt; keys.get(0).map(|key| key.values == old), Some(true));
    Ok(())
}

#[test]
fn copies_are_equal(rt: HostRuntime) -> Result<(), Fail> {
    let alloc = rt.alloc();
    let table = table(alloc)?;
    let copy = table.copy(alloc)?;
    assert!(rt; table.equals(alloc, &copy)?);
    let ordered = in_name_order(alloc, table.columns())?;
    assert_eq!(rt; ordered.len(), 2);
    Ok(())
}

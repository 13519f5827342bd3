ghost use Rattle.std.specs.Prelude.{◌≡◌, IfOk, IsTrue};
ghost use Rattle.std.specs.List.{list_all};
ghost use Rattle.dm_schema.specs.Kinds.{is_column};

use crate::show_text;
use dm_list::{Bytes, Sequence};
use dm_schema::{Column, DefaultRule, Kind, Names, Schema, TableName};
use dm_table::RowOp;
use dm_target::{Call, MemoryTarget, Meta, in_order};
use dm_value::{Name, Row, Value};
use std::alloc::{AllocError, Global};
use std::test::Fail;

fn bytes(alloc: Global, text: &[u8]) -> Result<Bytes, AllocError> {
    Ok(Bytes::new(text.to_vec(alloc)?))
}

fn name(alloc: Global, text: &[u8]) -> Result<Name, AllocError>
    ensures { IfOk result (λ name. name ≡ text.now) }
{
    Ok(Name::new(text.to_vec(alloc)?))
}

fn table_name(alloc: Global) -> Result<TableName, AllocError> {
    Ok(TableName {
        db: name(alloc, b"m")?,
        table: name(alloc, b"t")?,
    })
}

/// `id` INT NOT NULL.
fn id(alloc: Global) -> Result<Column, AllocError>
    ensures { IfOk result (λ column. IsTrue (is_column column)) }
{
    Ok(Column {
        name: name(alloc, b"id")?,
        kind: Kind::Signed(4),
        nullable: false,
        default_rule: DefaultRule::Nothing,
    })
}

/// `v` BIGINT NULL.
fn value(alloc: Global) -> Result<Column, AllocError>
    ensures { IfOk result (λ column. IsTrue (is_column column)) }
{
    Ok(Column {
        name: name(alloc, b"v")?,
        kind: Kind::Signed(8),
        nullable: true,
        default_rule: DefaultRule::Nothing,
    })
}

fn columns(alloc: Global) -> Result<Vec<Column>, AllocError>
    ensures { IfOk result (λ columns. IsTrue (list_all is_column columns.items)) }
{
    Ok(vec![in alloc; value(alloc)?, id(alloc)?]?)
}

fn schema(alloc: Global) -> Result<Schema, Fail> {
    let primary = Names::new(vec![in alloc; name(alloc, b"id")?]?);
    Ok(Schema::new(columns(alloc)?, primary, Vec::new(alloc))?)
}

fn insertion(alloc: Global, id: i128, value: Value) -> Result<RowOp, AllocError> {
    let columns = vec![in alloc; name(alloc, b"id")?, name(alloc, b"v")?]?;
    let row = vec![in alloc; Value::Int(id), value]?;
    Ok(RowOp::Insert {
        columns: Names::new(columns),
        row: Row::new(row),
    })
}

fn insertions(alloc: Global) -> Result<Call, AllocError> {
    let second = insertion(alloc, 2, Value::Null)?;
    let first = insertion(alloc, 1, Value::Int(-7))?;
    Ok(Call::Apply {
        table: table_name(alloc)?,
        ops: Sequence::new(vec![in alloc; second, first]?),
    })
}

fn meta(alloc: Global, name: &[u8], text: &[u8]) -> Result<Meta, AllocError> {
    Ok(Meta {
        name: bytes(alloc, name)?,
        text: bytes(alloc, text)?,
    })
}

fn metas(alloc: Global) -> Result<Call, AllocError> {
    let second = meta(alloc, b"shard a `s`.`t0`", b"{\"version\":1}")?;
    let first = meta(alloc, b"lock `m`.`t`", b"")?;
    Ok(Call::Metas {
        pairs: Sequence::new(vec![in alloc; second, first]?),
    })
}

fn target(alloc: Global) -> Result<MemoryTarget, Fail> {
    let mut target = MemoryTarget::new(alloc);
    let table = table_name(alloc)?;
    let schema = in_order(alloc, &schema(alloc)?)?;
    target.carry_out(alloc, Call::Create { table, schema })?;
    target.carry_out(alloc, insertions(alloc)?)?;
    target.carry_out(alloc, metas(alloc)?)?;
    Ok(target)
}

#[test]
fn shows_tables_and_texts_in_order(rt: HostRuntime) -> Result<(), Fail> {
    let alloc = rt.alloc();
    let want = b"table `m`.`t`\n\
        column `id` INT NOT NULL\n\
        column `v` BIGINT NULL\n\
        primary (`id`)\n\
        rows 2\n\
        row (1,-7)\n\
        row (2,NULL)\n\
        meta lock `m`.`t` \n\
        meta shard a `s`.`t0` {\"version\":1}\n";
    let text = show_text(alloc, &target(alloc)?)?;
    assert_eq!(rt; text.as_slice(), want.as_slice());
    Ok(())
}

#[test]
fn shows_nothing_of_an_empty_target(rt: HostRuntime) -> Result<(), Fail> {
    let text = show_text(rt.alloc(), &MemoryTarget::new(rt.alloc()))?;
    assert_eq!(rt; text.as_slice(), b"".as_slice());
    Ok(())
}

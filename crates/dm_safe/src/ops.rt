ghost use Rattle.std.specs.Prelude.{◌≡◌, [], ◌∷◌, ◌++◌, IfOk};
ghost use Rattle.dm_schema.specs.Names.{column_names};
ghost use Rattle.dm_schema.specs.Rows.{key_of, values_at};
ghost use Rattle.dm_table.specs.declared.op.RowOp.TheVariants.{Erase, Replace};
ghost use Rattle.dm_safe.specs.Modes.{names_of, values_of, plain_ops, safe_ops, ops_in, ops_of};

use crate::Mode;
use dm_list::Copied;
use dm_schema::{Column, RowChange, Schema, in_name_order, key_of, values_at};
use dm_table::RowOp;
use dm_value::{Name, Names, Row};
use std::alloc::{AllocError, Global};

fn column_names(alloc: Global, columns: &[Column]) -> Result<Names, AllocError>
    ensures { IfOk result (λ names. names ≡ column_names columns.now) }
{
    let mut names = Vec::with_capacity(alloc, columns.len())?;
    for column in columns {
        names.push(column.name.copy(alloc)?)?;
    }
    Ok(Names::new(names))
}

/// The names of a schema's columns in byte order.
fn names_of(alloc: Global, schema: &Schema) -> Result<Names, AllocError>
    ensures { IfOk result (λ names. names ≡ names_of schema.now) }
{
    let columns = in_name_order(alloc, schema.columns())?;
    column_names(alloc, &columns)
}

/// The values of a row in the columns of these names.
fn values_of(alloc: Global, schema: &Schema, names: &Names, row: &Row) -> Result<Row, AllocError>
    ensures { IfOk result (λ values. values ≡ values_at (schema.now).columns row.now names.now) }
{
    let values = values_at(alloc, schema.columns(), row.as_slice(), names.as_slice())?;
    Ok(Row::new(values))
}

fn push_plain(
    alloc: Global,
    ops: &mut Vec<RowOp>,
    schema: &Schema,
    names: &Names,
    change: &RowChange,
) -> Result<(), AllocError>
    requires { names.now ≡ names_of schema.now }
    ensures { IfOk result (λ _. ops.new.items ≡ ops.old.items ++ plain_ops schema.now change.now) }
{
    match change {
        RowChange::Insert(new) => ops.push(RowOp::Insert {
            columns: names.copy(alloc)?,
            row: values_of(alloc, schema, names, new)?,
        })?,
        RowChange::Update(old, new) => ops.push(RowOp::Update {
            columns: names.copy(alloc)?,
            key: key_of(alloc, schema, old)?,
            row: values_of(alloc, schema, names, new)?,
        })?,
        RowChange::Delete(old) => ops.push(RowOp::Delete {
            key: key_of(alloc, schema, old)?,
        })?,
    }
    Ok(())
}

fn push_erase(
    alloc: Global,
    ops: &mut Vec<RowOp>,
    schema: &Schema,
    old: &Row,
) -> Result<(), AllocError>
    ensures { IfOk result (λ _. ops.new.items ≡ ops.old.items ++ Erase (key_of schema.now old.now) ∷ []) }
{
    ops.push(RowOp::Erase {
        key: key_of(alloc, schema, old)?,
    })?;
    Ok(())
}

fn push_replace(
    alloc: Global,
    ops: &mut Vec<RowOp>,
    schema: &Schema,
    names: &Names,
    new: &Row,
) -> Result<(), AllocError>
    requires { names.now ≡ names_of schema.now }
    ensures { IfOk result (λ _. ops.new.items ≡ ops.old.items ++ Replace (names_of schema.now) (values_of schema.now new.now) ∷ []) }
{
    ops.push(RowOp::Replace {
        columns: names.copy(alloc)?,
        row: values_of(alloc, schema, names, new)?,
    })?;
    Ok(())
}

fn push_safe(
    alloc: Global,
    ops: &mut Vec<RowOp>,
    schema: &Schema,
    names: &Names,
    change: &RowChange,
) -> Result<(), AllocError>
    requires { names.now ≡ names_of schema.now }
    ensures { IfOk result (λ _. ops.new.items ≡ ops.old.items ++ safe_ops schema.now change.now) }
{
    match change {
        RowChange::Insert(new) => push_replace(alloc, ops, schema, names, new),
        RowChange::Update(old, new) => {
            push_erase(alloc, ops, schema, old)?;
            push_replace(alloc, ops, schema, names, new)
        }
        RowChange::Delete(old) => push_erase(alloc, ops, schema, old),
    }
}

fn push_ops(
    alloc: Global,
    ops: &mut Vec<RowOp>,
    schema: &Schema,
    names: &Names,
    change: &RowChange,
    mode: Mode,
) -> Result<(), AllocError>
    requires { names.now ≡ names_of schema.now }
    ensures { IfOk result (λ _. ops.new.items ≡ ops.old.items ++ ops_in mode schema.now change.now) }
{
    match mode {
        Mode::Plain => push_plain(alloc, ops, schema, names, change),
        Mode::Safe => push_safe(alloc, ops, schema, names, change),
    }
}

/// The operations of changes of rows, one after another, with the columns in byte order of their names.
pub fn ops_of(
    alloc: Global,
    schema: &Schema,
    changes: &[RowChange],
    mode: Mode,
) -> Result<Vec<RowOp>, AllocError>
    ensures { IfOk result (λ ops. ops.items ≡ ops_of schema.now changes.now mode) }
{
    let names = names_of(alloc, schema)?;
    let mut ops = Vec::new(alloc);
    for change in changes {
        push_ops(alloc, &mut ops, schema, &names, change, mode)?;
    }
    Ok(ops)
}

ghost use Rattle.std.specs.Prelude.{◌≡◌, ◌++◌, codes, OnOk};
ghost use Rattle.std.specs.List.{flat_map};
ghost use Rattle.dm_text.specs.Names.{table_name_text};
ghost use Rattle.dm_stmt.specs.Texts.{transaction, op_text, row_text, where_text};

use crate::values::{push_equations, push_row_values};
use dm_schema::{Schema, TableName};
use dm_table::RowOp;
use dm_text::{push_name_list, push_table_name};
use dm_value::{Name, Value};
use std::alloc::{AllocError, Global};

/// Adds the operations on a table, which happen whole or not at all.
pub fn push_ops(
    alloc: Global,
    out: &mut Vec<u8>,
    table: &TableName,
    schema: &Schema,
    ops: &[RowOp],
) -> Result<(), AllocError>
    ensures { OnOk result
        (out.new.items ≡ out.old.items
        ++ transaction (flat_map (op_text table.now schema.now) ops.now)) }
{
    out.extend_from_slice(b"BEGIN;\n")?;
    push_each_op(alloc, out, table, schema, ops)?;
    out.extend_from_slice(b"COMMIT;\n")?;
    Ok(())
}

fn push_each_op(
    alloc: Global,
    out: &mut Vec<u8>,
    table: &TableName,
    schema: &Schema,
    ops: &[RowOp],
) -> Result<(), AllocError>
    ensures { OnOk result
        (out.new.items ≡ out.old.items ++ flat_map (op_text table.now schema.now) ops.now) }
{
    for op in ops {
        push_op(alloc, out, table, schema, op)?;
    }
    Ok(())
}

fn push_op(
    alloc: Global,
    out: &mut Vec<u8>,
    table: &TableName,
    schema: &Schema,
    op: &RowOp,
) -> Result<(), AllocError>
    ensures { OnOk result (out.new.items ≡ out.old.items ++ op_text table.now schema.now op.now) }
{
    match op {
        RowOp::Insert { columns, row } => {
            let (names, values) = (columns.as_slice(), row.as_slice());
            push_row(alloc, out, b"INSERT", table, schema, names, values)
        }
        RowOp::Replace { columns, row } => {
            let (names, values) = (columns.as_slice(), row.as_slice());
            push_row(alloc, out, b"REPLACE", table, schema, names, values)
        }
        RowOp::Update { columns, key, row } => {
            let (names, values) = (columns.as_slice(), row.as_slice());
            push_update(alloc, out, table, schema, names, key.as_slice(), values)
        }
        RowOp::Delete { key } => {
            push_delete(alloc, out, table, schema, key.as_slice(), b" LIMIT 1;\n")
        }
        RowOp::Erase { key } => push_delete(alloc, out, table, schema, key.as_slice(), b";\n"),
    }
}

/// Adds a new row behind the word for what becomes of one that is there.
fn push_row(
    alloc: Global,
    out: &mut Vec<u8>,
    verb: &[u8],
    table: &TableName,
    schema: &Schema,
    names: &[Name],
    row: &[Value],
) -> Result<(), AllocError>
    ensures { OnOk result
        (out.new.items ≡ out.old.items
        ++ row_text verb.now table.now schema.now names.now row.now) }
{
    out.extend_from_slice(verb)?;
    out.extend_from_slice(b" INTO ")?;
    push_table_name(out, table)?;
    out.push(b' ')?;
    push_name_list(out, names)?;
    out.extend_from_slice(b" VALUES ")?;
    push_row_values(alloc, out, schema, names, row)?;
    out.extend_from_slice(b";\n")?;
    Ok(())
}

fn push_update(
    alloc: Global,
    out: &mut Vec<u8>,
    table: &TableName,
    schema: &Schema,
    names: &[Name],
    key: &[Value],
    row: &[Value],
) -> Result<(), AllocError>
    ensures { OnOk result
        (out.new.items ≡ out.old.items
        ++ op_text table.now schema.now (RowOp.Update names.now key.now row.now)) }
{
    out.extend_from_slice(b"UPDATE ")?;
    push_table_name(out, table)?;
    out.extend_from_slice(b" SET ")?;
    push_equations(alloc, out, b",", schema, names, row)?;
    push_where(alloc, out, schema, key)?;
    out.extend_from_slice(b" LIMIT 1;\n")?;
    Ok(())
}

/// Adds the removal of a row. The end of the statement tells the removal of a row that has to be there, by its LIMIT, from
/// that of one that may be gone.
fn push_delete(
    alloc: Global,
    out: &mut Vec<u8>,
    table: &TableName,
    schema: &Schema,
    key: &[Value],
    end: &[u8],
) -> Result<(), AllocError>
    ensures { OnOk result
        (out.new.items ≡ out.old.items
        ++ (codes "DELETE FROM " ++ table_name_text table.now
        ++ where_text schema.now key.now ++ end.now)) }
{
    out.extend_from_slice(b"DELETE FROM ")?;
    push_table_name(out, table)?;
    push_where(alloc, out, schema, key)?;
    out.extend_from_slice(end)?;
    Ok(())
}

/// Adds which row it is: the one of a primary key.
fn push_where(
    alloc: Global,
    out: &mut Vec<u8>,
    schema: &Schema,
    key: &[Value],
) -> Result<(), AllocError>
    ensures { OnOk result (out.new.items ≡ out.old.items ++ where_text schema.now key.now) }
{
    let names = schema.primary().as_slice();
    out.extend_from_slice(b" WHERE ")?;
    push_equations(alloc, out, b" AND ", schema, names, key)
}

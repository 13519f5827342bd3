ghost use Rattle.std.specs.Prelude.{◌≡◌, ◌++◌, OnOk};
ghost use Rattle.std.specs.List.{flat_map};
ghost use Rattle.dm_text.specs.Names.{behind_comma, with_commas};
ghost use Rattle.dm_text.specs.Values.{tuple_text, value_texts};
ghost use Rattle.dm_stmt.specs.Texts.{behind, separated, columns_named, equation, equations};

use dm_schema::{Column, Schema};
use dm_text::{push_name, push_value};
use dm_value::{Name, Value};
use std::alloc::{AllocError, Global};

/// Adds the values of a row in brackets, with commas between them. They stand in the order of the names; names of no
/// column are passed over.
pub(crate) fn push_row_values(
    alloc: Global,
    out: &mut Vec<u8>,
    schema: &Schema,
    names: &[Name],
    row: &[Value],
) -> Result<(), AllocError>
    ensures { OnOk result
        (out.new.items ≡ out.old.items
        ++ tuple_text (columns_named schema.now.columns names.now) row.now) }
{
    out.push(b'(')?;
    push_values(alloc, out, schema, names, row)?;
    out.push(b')')?;
    Ok(())
}

/// Adds values with commas between them.
fn push_values(
    alloc: Global,
    out: &mut Vec<u8>,
    schema: &Schema,
    names: &[Name],
    row: &[Value],
) -> Result<(), AllocError>
    ensures { OnOk result
        (out.new.items ≡ out.old.items
        ++ with_commas (value_texts (columns_named schema.now.columns names.now) row.now)) }
{
    let [name, names @ ..] = names else {
        return Ok(());
    };
    let Some(column) = schema.column(name) else {
        return push_values(alloc, out, schema, names, row);
    };
    let [value, row @ ..] = row else {
        return Ok(());
    };
    push_value(alloc, out, column.kind, value)?;
    push_further_values(alloc, out, schema, names, row)
}

/// Adds values, each behind a comma.
fn push_further_values(
    alloc: Global,
    out: &mut Vec<u8>,
    schema: &Schema,
    names: &[Name],
    row: &[Value],
) -> Result<(), AllocError>
    ensures { OnOk result
        (out.new.items ≡ out.old.items
        ++ flat_map behind_comma (value_texts (columns_named schema.now.columns names.now) row.now)) }
{
    let [name, names @ ..] = names else {
        return Ok(());
    };
    let Some(column) = schema.column(name) else {
        return push_further_values(alloc, out, schema, names, row);
    };
    let [value, row @ ..] = row else {
        return Ok(());
    };
    out.push(b',')?;
    push_value(alloc, out, column.kind, value)?;
    push_further_values(alloc, out, schema, names, row)
}

/// Adds columns with their values, as `name`=value, and a separator between them. Values stand in the order of the names;
/// names of no column are passed over.
pub(crate) fn push_equations(
    alloc: Global,
    out: &mut Vec<u8>,
    separator: &[u8],
    schema: &Schema,
    names: &[Name],
    row: &[Value],
) -> Result<(), AllocError>
    ensures { OnOk result
        (out.new.items ≡ out.old.items
        ++ separated separator.now
        (equations (columns_named schema.now.columns names.now) row.now)) }
{
    let [name, names @ ..] = names else {
        return Ok(());
    };
    let Some(column) = schema.column(name) else {
        return push_equations(alloc, out, separator, schema, names, row);
    };
    let [value, row @ ..] = row else {
        return Ok(());
    };
    push_equation(alloc, out, column, value)?;
    push_further_equations(alloc, out, separator, schema, names, row)
}

/// Adds columns with their values, each behind a separator.
fn push_further_equations(
    alloc: Global,
    out: &mut Vec<u8>,
    separator: &[u8],
    schema: &Schema,
    names: &[Name],
    row: &[Value],
) -> Result<(), AllocError>
    ensures { OnOk result
        (out.new.items ≡ out.old.items
        ++ flat_map (behind separator.now)
        (equations (columns_named schema.now.columns names.now) row.now)) }
{
    let [name, names @ ..] = names else {
        return Ok(());
    };
    let Some(column) = schema.column(name) else {
        return push_further_equations(alloc, out, separator, schema, names, row);
    };
    let [value, row @ ..] = row else {
        return Ok(());
    };
    out.extend_from_slice(separator)?;
    push_equation(alloc, out, column, value)?;
    push_further_equations(alloc, out, separator, schema, names, row)
}

fn push_equation(
    alloc: Global,
    out: &mut Vec<u8>,
    column: &Column,
    value: &Value,
) -> Result<(), AllocError>
    ensures { OnOk result (out.new.items ≡ out.old.items ++ equation column.now value.now) }
{
    push_name(out, &column.name)?;
    out.push(b'=')?;
    push_value(alloc, out, column.kind, value)
}

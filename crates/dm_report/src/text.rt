ghost use Rattle.std.specs.Prelude.{◌≡◌, ◌++◌, length, map, OnOk};
ghost use Rattle.std.specs.List.{flat_map};
ghost use Rattle.dm_report.specs.Texts.{column_line, primary_line, unique_line, count_line, head_text, row_line, table_text};

use dm_schema::{Column, Schema, UniqueKey};
use dm_text::{push_column, push_name, push_name_list, push_tuple};
use dm_value::{Name, Row, Value};
use std::alloc::{AllocError, Global};

/// Adds the text of a table. Columns and unique keys stand in the schema's order, and rows as they are handed in, which
/// is the order of their keys. Where memory runs out, a part of the text may have been added.
pub fn push_table(
    alloc: Global,
    out: &mut Vec<u8>,
    schema: &Schema,
    rows: &[&Row],
) -> Result<(), AllocError>
    ensures { OnOk result (out.new.items ≡ out.old.items ++ table_text schema.now.columns schema.now.primary schema.now.uniques (map (λ row. row.now) rows.now) (length (map (λ row. row.now) rows.now))) }
{
    let columns = schema.columns();
    let primary = schema.primary().as_slice();
    let count = rows.len() as u64;
    push_head(alloc, out, columns, primary, schema.uniques(), count)?;
    push_rows(alloc, out, columns, rows)
}

/// Adds the lines of columns, of the primary key, of unique keys, and of the number of rows.
pub(crate) fn push_head(
    alloc: Global,
    out: &mut Vec<u8>,
    columns: &[Column],
    primary: &[Name],
    uniques: &[UniqueKey],
    count: u64,
) -> Result<(), AllocError>
    ensures { OnOk result
        (out.new.items ≡ out.old.items ++ head_text columns.now primary.now uniques.now count) }
{
    push_columns(alloc, out, columns)?;
    push_primary(out, primary)?;
    push_uniques(out, uniques)?;
    push_count(alloc, out, count)
}

/// Adds the lines of rows.
fn push_rows(
    alloc: Global,
    out: &mut Vec<u8>,
    columns: &[Column],
    rows: &[&Row],
) -> Result<(), AllocError>
    ensures { OnOk result (out.new.items ≡ out.old.items ++ flat_map (row_line columns.now) (map (λ row. row.now) rows.now)) }
{
    for row in rows {
        push_row(alloc, out, columns, row.as_slice())?;
    }
    Ok(())
}

/// Adds the line of a row.
pub(crate) fn push_row(
    alloc: Global,
    out: &mut Vec<u8>,
    columns: &[Column],
    row: &[Value],
) -> Result<(), AllocError>
    ensures { OnOk result (out.new.items ≡ out.old.items ++ row_line columns.now row.now) }
{
    out.extend_from_slice(b"row ")?;
    push_tuple(alloc, out, columns, row)?;
    out.extend_from_slice(b"\n")?;
    Ok(())
}

fn push_columns(alloc: Global, out: &mut Vec<u8>, columns: &[Column]) -> Result<(), AllocError>
    ensures { OnOk result (out.new.items ≡ out.old.items ++ flat_map column_line columns.now) }
{
    for column in columns {
        push_column_line(alloc, out, column)?;
    }
    Ok(())
}

fn push_column_line(alloc: Global, out: &mut Vec<u8>, column: &Column) -> Result<(), AllocError>
    ensures { OnOk result (out.new.items ≡ out.old.items ++ column_line column.now) }
{
    out.extend_from_slice(b"column ")?;
    push_column(alloc, out, column)?;
    out.extend_from_slice(b"\n")?;
    Ok(())
}

fn push_primary(out: &mut Vec<u8>, names: &[Name]) -> Result<(), AllocError>
    ensures { OnOk result (out.new.items ≡ out.old.items ++ primary_line names.now) }
{
    out.extend_from_slice(b"primary ")?;
    push_name_list(out, names)?;
    out.extend_from_slice(b"\n")?;
    Ok(())
}

fn push_uniques(out: &mut Vec<u8>, uniques: &[UniqueKey]) -> Result<(), AllocError>
    ensures { OnOk result (out.new.items ≡ out.old.items ++ flat_map unique_line uniques.now) }
{
    for unique in uniques {
        push_unique(out, unique)?;
    }
    Ok(())
}

fn push_unique(out: &mut Vec<u8>, unique: &UniqueKey) -> Result<(), AllocError>
    ensures { OnOk result (out.new.items ≡ out.old.items ++ unique_line unique.now) }
{
    out.extend_from_slice(b"unique ")?;
    push_name(out, &unique.name)?;
    out.extend_from_slice(b" ")?;
    push_name_list(out, unique.columns.as_slice())?;
    out.extend_from_slice(b"\n")?;
    Ok(())
}

fn push_count(alloc: Global, out: &mut Vec<u8>, count: u64) -> Result<(), AllocError>
    ensures { OnOk result (out.new.items ≡ out.old.items ++ count_line count) }
{
    let digits = count.to_string(alloc)?;
    out.extend_from_slice(b"rows ")?;
    out.extend_from_slice(digits.as_bytes())?;
    out.extend_from_slice(b"\n")?;
    Ok(())
}

ghost use Rattle.std.specs.Prelude.{◌≡◌, ◌∷◌, ◌++◌, nat_le, IsTrue, IfOk, OnOk};
ghost use Rattle.std.specs.List.{flat_map, list_all};
ghost use Rattle.std.specs.Cmp.Lexicographic.{pointwise};
ghost use Rattle.dm_schema.specs.Fits.{fits};
ghost use Rattle.dm_text.specs.Names.{quoted};
ghost use Rattle.dm_text.specs.Values.{tuple_text};
ghost use Rattle.dm_write.specs.Dumps.{tuples_text, insert_text, rows_text, dump_text};
ghost use Rattle.dm_write.specs.Lengths.{has_length};
ghost use Rattle.dm_write.specs.ReadBack.{IsReadBack};

use dm_reread::{column_bytes, rows_bytes};
use dm_schema::{Column, Kind, Schema};
use dm_text::{push_create, push_name, push_tuple};
use dm_value::{Name, Row, Rows};
use std::alloc::{AllocError, Global};

/// The dump of a table in SQL: a line that makes it, and where it has rows, one line that inserts them all.
pub fn write_dump(
    alloc: Global,
    table: &Name,
    schema: &Schema,
    rows: &Rows,
) -> Result<Vec<u8>, AllocError>
    requires { IsTrue (list_all (λ row. pointwise fits row schema.now.columns) rows.now) }
    ensures value { IfOk result (λ text. text.items ≡ dump_text table.now schema.now rows.now) }
    ensures read_back { IfOk result (λ text. IsReadBack table.now schema.now rows.now text.items) }
{
    let columns = schema.columns();
    column_lengths(columns);
    column_bytes(columns);
    let rows = rows.as_slice();
    rows_bytes(rows);
    let name = quoted_name(alloc, table)?;
    let mut text = Vec::new(alloc);
    push_create(alloc, &mut text, &name, schema)?;
    push_rows(alloc, &mut text, &name, columns, rows)?;
    Ok(text)
}

/// Says of a number what its type does.
fn short_length(most: u16)
    ensures { IsTrue (nat_le most 65535) }
{
    let _most = most;
}

fn kind_length(kind: Kind)
    ensures { IsTrue (has_length kind) }
{
    match kind {
        Kind::Varchar(most) => short_length(most),
        Kind::Varbinary(most) => short_length(most),
        _ => {}
    }
}

/// Says that the lengths of columns have 16 bits, which a reader asks for.
fn column_lengths(columns: &[Column])
    ensures { IsTrue (list_all (λ c. has_length c.kind) columns.now) }
{
    for column in columns {
        kind_length(column.kind);
    }
}

fn quoted_name(alloc: Global, name: &Name) -> Result<Vec<u8>, AllocError>
    ensures { IfOk result (λ text. text.items ≡ quoted name.now) }
{
    let mut text = Vec::new(alloc);
    push_name(&mut text, name)?;
    Ok(text)
}

/// Adds the line that inserts rows, unless there are none.
fn push_rows(
    alloc: Global,
    out: &mut Vec<u8>,
    name: &[u8],
    columns: &[Column],
    rows: &[Row],
) -> Result<(), AllocError>
    ensures { OnOk result
        (out.new.items ≡ out.old.items ++ rows_text name.now columns.now rows.now) }
{
    match rows {
        [] => Ok(()),
        _ => push_insert(alloc, out, name, columns, rows),
    }
}

fn push_insert(
    alloc: Global,
    out: &mut Vec<u8>,
    name: &[u8],
    columns: &[Column],
    rows: &[Row],
) -> Result<(), AllocError>
    ensures { OnOk result
        (out.new.items ≡ out.old.items ++ insert_text name.now columns.now rows.now) }
{
    out.extend_from_slice(b"INSERT INTO ")?;
    out.extend_from_slice(name)?;
    out.extend_from_slice(b" VALUES ")?;
    push_tuples(alloc, out, columns, rows)?;
    out.extend_from_slice(b";\n")?;
    Ok(())
}

/// Adds rows with commas between them.
fn push_tuples(
    alloc: Global,
    out: &mut Vec<u8>,
    columns: &[Column],
    rows: &[Row],
) -> Result<(), AllocError>
    ensures { OnOk result (out.new.items ≡ out.old.items ++ tuples_text columns.now rows.now) }
{
    match rows {
        [] => Ok(()),
        [first, rest @ ..] => {
            push_tuple(alloc, out, columns, first.as_slice())?;
            push_further_tuples(alloc, out, columns, rest)
        }
    }
}

/// Adds rows, each behind a comma.
fn push_further_tuples(
    alloc: Global,
    out: &mut Vec<u8>,
    columns: &[Column],
    rows: &[Row],
) -> Result<(), AllocError>
    ensures { OnOk result
        (out.new.items ≡ out.old.items ++ flat_map (λ row. 44 ∷ tuple_text columns.now row) rows.now) }
{
    for row in rows {
        out.push(b',')?;
        push_tuple(alloc, out, columns, row.as_slice())?;
    }
    Ok(())
}

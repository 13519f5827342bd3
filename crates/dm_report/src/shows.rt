ghost use Rattle.std.specs.Prelude.{◌≡◌, ◌++◌, map, codes, IfOk, OnOk};
ghost use Rattle.std.specs.BTreeMap.{values};
ghost use Rattle.std.specs.List.{flat_map};
ghost use Rattle.dm_text.specs.Names.{table_name_text};
ghost use Rattle.dm_report.specs.Faults.{behind_blank};
ghost use Rattle.dm_report.specs.Shows.{table_part, meta_line, show_text};

use crate::faults::push_two;
use crate::text::push_table;
use dm_list::Bytes;
use dm_schema::TableName;
use dm_table::Table;
use dm_target::MemoryTarget;
use dm_text::push_table_name;
use dm_value::Row;
use std::alloc::{AllocError, Global};
use std::collections::BTreeMap;

/// What is printed of a target: each table behind its name, then each text behind its name, both in byte order of these.
pub fn show_text(alloc: Global, target: &MemoryTarget) -> Result<Bytes, AllocError>
    ensures { IfOk result (λ text. text ≡ show_text (record { tables = target.now.tables; metas = target.now.texts })) }
{
    let mut text = Vec::new(alloc);
    push_tables(alloc, &mut text, target.tables_in_order())?;
    push_metas(&mut text, target.metas_in_order())?;
    Ok(Bytes::new(text))
}

fn push_tables(
    alloc: Global,
    text: &mut Vec<u8>,
    tables: &BTreeMap<TableName, Table>,
) -> Result<(), AllocError>
    ensures { OnOk result (text.new.items ≡ text.old.items ++ flat_map table_part tables.now.entries) }
{
    for (name, table) in tables {
        push_named_table(alloc, text, name, table)?;
    }
    Ok(())
}

fn push_named_table(
    alloc: Global,
    text: &mut Vec<u8>,
    name: &TableName,
    table: &Table,
) -> Result<(), AllocError>
    ensures { OnOk result (text.new.items ≡ text.old.items ++ table_part (name.now, table.now)) }
{
    push_title(text, name)?;
    let rows = in_order(alloc, table.rows())?;
    push_table(alloc, text, table.schema(), &rows)
}

/// A table's rows in the order of their keys.
fn in_order<'a>(alloc: Global, rows: &'a BTreeMap<Row, Row>) -> Result<Vec<&'a Row>, AllocError>
    ensures { IfOk result (λ listed. map (λ row. row.now) listed.items ≡ values rows.now) }
{
    let mut listed = Vec::with_capacity(alloc, rows.len())?;
    for row in rows.values() {
        listed.push(row)?;
    }
    Ok(listed)
}

/// Adds the line of a table's name.
fn push_title(text: &mut Vec<u8>, name: &TableName) -> Result<(), AllocError>
    ensures { OnOk result (text.new.items ≡ text.old.items ++ (codes "table" ++ behind_blank (table_name_text name.now) ++ codes "\n")) }
{
    text.extend_from_slice(b"table ")?;
    push_table_name(text, name)?;
    text.extend_from_slice(b"\n")?;
    Ok(())
}

fn push_metas(text: &mut Vec<u8>, metas: &BTreeMap<Bytes, Bytes>) -> Result<(), AllocError>
    ensures { OnOk result (text.new.items ≡ text.old.items ++ flat_map meta_line metas.now.entries) }
{
    for (name, meta) in metas {
        push_meta(text, name, meta)?;
    }
    Ok(())
}

fn push_meta(text: &mut Vec<u8>, name: &Bytes, meta: &Bytes) -> Result<(), AllocError>
    ensures { OnOk result (text.new.items ≡ text.old.items ++ meta_line (name.now, meta.now)) }
{
    text.extend_from_slice(b"meta")?;
    push_two(text, name.as_slice(), meta.as_slice())?;
    text.extend_from_slice(b"\n")?;
    Ok(())
}

ghost use Rattle.std.specs.Prelude.{◌≡◌, ◌||◌, not, IfOk, OnOk};
ghost use Rattle.std.specs.List.{filter};
ghost use Rattle.std.specs.FinMap as fin;
ghost use Rattle.dm_table.specs.Contents.{same_row, share_unique};
ghost use Rattle.dm_table.specs.Indexing.{Tells, told_places};
ghost use Rattle.dm_table.specs.Staging.{rows_behind, removed_all};

use crate::indexing::{entries_of, push_some, told_place};
use crate::staged::Staged;
use dm_schema::Schema;
use dm_value::Row;
use std::alloc::{AllocError, Global};

/// Removes the row of a key, and those that agree with a row in a unique key.
pub fn remove_sharing(
    alloc: Global,
    schema: &Schema,
    key: &Row,
    row: &Row,
    rows: &mut Staged,
    index: &mut Staged,
) -> Result<(), AllocError>
    requires { Tells schema.now (rows_behind rows.old) (rows_behind index.old) }
    ensures behind { OnOk result (rows_behind rows.new ≡ fin.from_entries (filter (λ e. not (same_row key.now e.0 || share_unique schema.now row.now e.1)) (fin.entries (rows_behind rows.old)))) }
    ensures told { OnOk result (Tells schema.now (rows_behind rows.new) (rows_behind index.new)) }
    ensures rows { OnOk result (rows.new.base ≡ rows.old.base) }
    ensures index { OnOk result (index.new.base ≡ index.old.base) }
{
    let sharing = sharing_keys(alloc, schema, row, rows, index)?;
    remove_row(alloc, schema, key, rows, index)?;
    remove_rows(alloc, schema, &sharing, rows, index)
}

/// The keys of the rows that agree with a row in a unique key.
fn sharing_keys(
    alloc: Global,
    schema: &Schema,
    row: &Row,
    rows: &Staged,
    index: &Staged,
) -> Result<Vec<Row>, AllocError>
    ensures { IfOk result (λ keys. keys.items ≡ told_places schema.now (rows_behind rows.now) (rows_behind index.now) row.now) }
{
    let columns = schema.columns();
    let mut keys = Vec::new(alloc);
    for key in schema.uniques() {
        push_some(
            told_place(alloc, key, columns, row, rows, index)?,
            &mut keys,
        )?;
    }
    Ok(keys)
}

fn remove_rows(
    alloc: Global,
    schema: &Schema,
    keys: &[Row],
    rows: &mut Staged,
    index: &mut Staged,
) -> Result<(), AllocError>
    ensures behind { OnOk result (rows_behind rows.new ≡ removed_all keys.now (rows_behind rows.old)) }
    ensures told { OnOk result (Tells schema.now (rows_behind rows.old) (rows_behind index.old) → Tells schema.now (rows_behind rows.new) (rows_behind index.new)) }
    ensures rows { OnOk result (rows.new.base ≡ rows.old.base) }
    ensures index { OnOk result (index.new.base ≡ index.old.base) }
{
    for key in keys {
        remove_row(alloc, schema, key, rows, index)?;
    }
    Ok(())
}

/// Removes the row of a key, and what the index has of it.
pub fn remove_row(
    alloc: Global,
    schema: &Schema,
    key: &Row,
    rows: &mut Staged,
    index: &mut Staged,
) -> Result<(), AllocError>
    ensures behind { OnOk result (rows_behind rows.new ≡ fin.remove (rows_behind rows.old) key.now) }
    ensures told { OnOk result (Tells schema.now (rows_behind rows.old) (rows_behind index.old) → Tells schema.now (rows_behind rows.new) (rows_behind index.new)) }
    ensures rows { OnOk result (rows.new.base ≡ rows.old.base) }
    ensures index { OnOk result (index.new.base ≡ index.old.base) }
{
    forget_row(alloc, schema, key, rows, index)?;
    rows.remove(alloc, key)
}

/// Removes what an index has of the row of a key.
fn forget_row(
    alloc: Global,
    schema: &Schema,
    key: &Row,
    rows: &Staged,
    index: &mut Staged,
) -> Result<(), AllocError>
    ensures told { OnOk result (Tells schema.now (rows_behind rows.now) (rows_behind index.old) → Tells schema.now (fin.remove (rows_behind rows.now) key.now) (rows_behind index.new)) }
    ensures index { OnOk result (index.new.base ≡ index.old.base) }
{
    match rows.get(key) {
        Some(row) => {
            let entries = entries_of(alloc, schema, row)?;
            index.remove_all(alloc, &entries)
        }
        None => Ok(()),
    }
}

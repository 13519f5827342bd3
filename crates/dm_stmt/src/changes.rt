ghost use Rattle.std.specs.Prelude.{◌≡◌, ◌++◌, true, map, codes, OnOk};
ghost use Rattle.std.specs.List.{flat_map};
ghost use Rattle.dm_stmt.specs.Texts.{alter_text, behind, change_text, separated};

use dm_schema::{Change, TableName, UniqueKey};
use dm_text::{push_column, push_name, push_name_list, push_table_name};
use std::alloc::{AllocError, Global};

/// Adds the alteration of a table by all its changes at once.
pub fn push_alter(
    alloc: Global,
    out: &mut Vec<u8>,
    table: &TableName,
    changes: &[Change],
) -> Result<(), AllocError>
    ensures { OnOk result (out.new.items ≡ out.old.items ++ alter_text table.now changes.now) }
{
    out.extend_from_slice(b"ALTER TABLE ")?;
    push_table_name(out, table)?;
    out.push(b' ')?;
    push_changes(alloc, out, changes)?;
    out.extend_from_slice(b";\n")?;
    Ok(())
}

fn push_changes(alloc: Global, out: &mut Vec<u8>, changes: &[Change]) -> Result<(), AllocError>
    ensures { OnOk result
        (out.new.items ≡ out.old.items ++ separated (codes ", ") (map change_text changes.now)) }
{
    match changes {
        [] => Ok(()),
        [first, rest @ ..] => {
            push_change(alloc, out, first)?;
            push_further_changes(alloc, out, rest)
        }
    }
}

fn push_further_changes(
    alloc: Global,
    out: &mut Vec<u8>,
    changes: &[Change],
) -> Result<(), AllocError>
    ensures { OnOk result
        (out.new.items ≡ out.old.items
        ++ flat_map (λ c. behind (codes ", ") (change_text c)) changes.now) }
{
    for change in changes {
        out.extend_from_slice(b", ")?;
        push_change(alloc, out, change)?;
    }
    Ok(())
}

/// Adds a change. Nothing is added for one that no alteration has.
fn push_change(alloc: Global, out: &mut Vec<u8>, change: &Change) -> Result<(), AllocError>
    ensures { OnOk result (out.new.items ≡ out.old.items ++ change_text change.now) }
{
    match change {
        Change::Add { column, .. } => {
            out.extend_from_slice(b"ADD COLUMN ")?;
            push_column(alloc, out, column)
        }
        Change::Drop { name } => {
            out.extend_from_slice(b"DROP COLUMN ")?;
            push_name(out, name)
        }
        Change::Modify { column, .. } => {
            out.extend_from_slice(b"MODIFY COLUMN ")?;
            push_column(alloc, out, column)
        }
        Change::AddUnique { key, .. } => push_unique(out, key),
        Change::DropKey { name } => {
            out.extend_from_slice(b"DROP INDEX ")?;
            push_name(out, name)
        }
        _ => Ok(()),
    }
}

fn push_unique(out: &mut Vec<u8>, key: &UniqueKey) -> Result<(), AllocError>
    ensures { OnOk result
        (out.new.items ≡ out.old.items ++ change_text (Change.AddUnique key.now true)) }
{
    out.extend_from_slice(b"ADD UNIQUE KEY ")?;
    push_name(out, &key.name)?;
    out.push(b' ')?;
    push_name_list(out, key.columns.as_slice())
}

ghost use Rattle.std.specs.Prelude.{◌≡◌, ◌++◌, IfOk};
ghost use Rattle.std.specs.List.{flat_map};
ghost use Rattle.dm_files.specs.Files.{table_files, source_files, files_of};

use dm_list::{Bytes, Copied};
use dm_task::{Source, SourceTable, Task};
use std::alloc::{AllocError, Global};

fn push_names(alloc: Global, names: &mut Vec<Bytes>, more: &[Bytes]) -> Result<(), AllocError>
    ensures { IfOk result (λ _. names.new.items ≡ names.old.items ++ more.now) }
{
    for name in more {
        names.push(name.copy(alloc)?)?;
    }
    Ok(())
}

fn push_table(alloc: Global, names: &mut Vec<Bytes>, table: &SourceTable) -> Result<(), AllocError>
    ensures { IfOk result (λ _. names.new.items ≡ names.old.items ++ table_files table.now) }
{
    names.push(table.create.copy(alloc)?)?;
    push_names(alloc, names, table.rows.as_slice())
}

fn push_tables(
    alloc: Global,
    names: &mut Vec<Bytes>,
    tables: &[SourceTable],
) -> Result<(), AllocError>
    ensures { IfOk result (λ _. names.new.items ≡ names.old.items ++ flat_map table_files tables.now) }
{
    for table in tables {
        push_table(alloc, names, table)?;
    }
    Ok(())
}

fn push_source(alloc: Global, names: &mut Vec<Bytes>, source: &Source) -> Result<(), AllocError>
    ensures { IfOk result (λ _. names.new.items ≡ names.old.items ++ source_files source.now) }
{
    push_names(alloc, names, source.binlogs.as_slice())?;
    push_tables(alloc, names, source.tables.as_slice())
}

/// The names of a task's files, in its order.
pub fn file_names(alloc: Global, task: &Task) -> Result<Vec<Bytes>, AllocError>
    ensures { IfOk result (λ names. names.items ≡ files_of task.now) }
{
    let sources = task.sources.as_slice();
    let mut names = Vec::new(alloc);
    for source in sources {
        push_source(alloc, &mut names, source)?;
    }
    Ok(names)
}

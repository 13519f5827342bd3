ghost use Rattle.std.specs.Prelude.{◌≡◌};
ghost use Rattle.std.specs.Option.{option_copied};
ghost use Rattle.std.specs.List.{flat_map};
ghost use Rattle.dm_files.specs.Files.{table_files, source_files, are_files};
ghost use Rattle.dm_files.specs.Fronts.{files_behind};

use crate::files::NamedFile;
use dm_list::Bytes;
use dm_task::{Source, SourceTable, Task};

/// The files behind those at the front that have these names, if they do.
fn behind_names<'a>(names: &[Bytes], files: &'a [NamedFile]) -> Option<&'a [NamedFile]>
    ensures { option_copied result ≡ files_behind names.now files.now }
{
    let mut left = files;
    for name in names {
        let [file, behind @ ..] = left else {
            return None;
        };
        if file.name != *name {
            return None;
        }
        left = behind;
    }
    Some(left)
}

fn behind_table<'a>(table: &SourceTable, files: &'a [NamedFile]) -> Option<&'a [NamedFile]>
    ensures { option_copied result ≡ files_behind (table_files table.now) files.now }
{
    let [file, behind @ ..] = files else {
        return None;
    };
    if file.name == table.create {
        behind_names(table.rows.as_slice(), behind)
    } else {
        None
    }
}

fn behind_tables<'a>(tables: &[SourceTable], files: &'a [NamedFile]) -> Option<&'a [NamedFile]>
    ensures { option_copied result ≡ files_behind (flat_map table_files tables.now) files.now }
{
    let mut left = files;
    for table in tables {
        left = behind_table(table, left)?;
    }
    Some(left)
}

fn behind_source<'a>(source: &Source, files: &'a [NamedFile]) -> Option<&'a [NamedFile]>
    ensures { option_copied result ≡ files_behind (source_files source.now) files.now }
{
    let left = behind_names(source.binlogs.as_slice(), files)?;
    behind_tables(source.tables.as_slice(), left)
}

fn behind_sources<'a>(sources: &[Source], files: &'a [NamedFile]) -> Option<&'a [NamedFile]>
    ensures { option_copied result ≡ files_behind (flat_map source_files sources.now) files.now }
{
    let mut left = files;
    for source in sources {
        left = behind_source(source, left)?;
    }
    Some(left)
}

/// Whether they are a task's files, in its order.
pub fn are_files(task: &Task, files: &[NamedFile]) -> bool
    ensures { result ≡ are_files task.now files.now }
{
    match behind_sources(task.sources.as_slice(), files) {
        Some(left) => left.is_empty(),
        None => false,
    }
}

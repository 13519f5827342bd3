ghost use Rattle.std.specs.Prelude.{◌≡◌, ◌+◌, ◌^◌, ◌-◌, min, length};
ghost use Rattle.std.specs.List.{flat_map};
ghost use Rattle.dm_files.specs.Files.{table_files, count_of};

use dm_task::{Source, SourceTable};

/// How many files a table has: that of its CREATE TABLE, and those of its rows.
pub fn table_count(table: &SourceTable) -> u64
    ensures { result ≡ length (table_files table.now) }
{
    let rows = table.rows.as_slice();
    1 + rows.len() as u64
}

fn tables_count(tables: &[SourceTable], before: u64) -> u64
    ensures { result ≡ min (before + length (flat_map table_files tables.now)) (2 ^ 64 - 1) }
{
    let mut count = before;
    for table in tables {
        count = count.saturating_add(table_count(table));
    }
    count
}

/// How many files a source has; the largest number, where there are more.
pub fn source_count(source: &Source) -> u64
    ensures { result ≡ count_of source.now }
{
    tables_count(source.tables.as_slice(), source.binlogs.len())
}

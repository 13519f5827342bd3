ghost use Rattle.std.specs.Prelude.{◌≡◌, IfOk, IsUtf8};
ghost use Rattle.std.specs.List.{AllByRecursion};
ghost use Rattle.dm_list.specs.Answer.{Answers};
ghost use Rattle.toml.specs.View.{table_view};
ghost use Rattle.dm_task.specs.Reading.{is_memory};
ghost use Rattle.dm_task.specs.TaskFile.{has_table, source_table_in, table_files, has_source, source_in, source_files};

use crate::array::{Element, array_or_none, needed_array};
use crate::keys::{
    Section, database, members_in, needed_file_name, needed_name, needed_source_name, whole_or,
};
use crate::place::{Place, path_of, refused};
use crate::texts::same_text;
use crate::{Source, SourceTable, TaskCause, TaskFault};
use std::alloc::Global;
use toml::Value;

const TABLE_KEYS: [&str; 4] = ["db", "table", "create", "rows"];

const SOURCE_KEYS: [&str; 4] = ["name", "binlogs", "start", "table"];

/// Whether one of these tables has the pair of names.
fn has_table(tables: &[SourceTable], db: &[u8], table: &[u8]) -> bool
    ensures { result ≡ has_table tables.now db.now table.now }
{
    tables.iter().any(|other| same_text(other.db.as_slice(), db)
        && same_text(other.table.as_slice(), table))
}

fn source_table_in(
    alloc: Global,
    earlier: &[SourceTable],
    section: Section<'_>,
) -> Result<SourceTable, TaskFault>
    ensures value { Answers is_memory result (source_table_in earlier.now section.entry.path.now (table_view section.entry.table.now)) }
    ensures texts { IfOk result (λ table. AllByRecursion IsUtf8 (table_files table)) }
{
    let db = database(alloc, section, "db", "table")?;
    let table = needed_name(alloc, section, "table")?;
    if has_table(earlier, db.as_slice(), table.as_slice()) {
        return refused(alloc, section.at("table"), TaskCause::Repeated);
    }
    let create = needed_file_name(alloc, section, "create")?;
    let rows = array_or_none(alloc, section, "rows", 1000)?;
    Ok(SourceTable {
        db,
        table,
        create,
        rows,
    })
}

impl Element for SourceTable {
    ghost use Rattle.dm_task.specs.TaskFile.{source_table, table_files};

    ghost reads = { source_table };

    ghost files = { table_files };

    fn read(
        alloc: Global,
        earlier: &[SourceTable],
        place: Place<'_>,
        value: &Value,
    ) -> Result<SourceTable, TaskFault> {
        let table = members_in(alloc, place, value, &TABLE_KEYS)?;
        let path = path_of(alloc, place)?;
        let section = Section { path: &path, table };
        source_table_in(alloc, earlier, section)
    }
}

/// Whether one of these sources has the name.
fn has_source(sources: &[Source], name: &[u8]) -> bool
    ensures { result ≡ has_source sources.now name.now }
{
    sources
        .iter()
        .any(|other| same_text(other.name.as_slice(), name))
}

fn source_in(alloc: Global, earlier: &[Source], section: Section<'_>) -> Result<Source, TaskFault>
    ensures value { Answers is_memory result (source_in earlier.now section.entry.path.now (table_view section.entry.table.now)) }
    ensures texts { IfOk result (λ source. AllByRecursion IsUtf8 (source_files source)) }
{
    let name = needed_source_name(alloc, section, "name")?;
    if has_source(earlier, name.as_slice()) {
        return refused(alloc, section.at("name"), TaskCause::Repeated);
    }
    let binlogs = array_or_none(alloc, section, "binlogs", 1000)?;
    let start = whole_or(alloc, section, "start", 4, 4, 134_217_728)?;
    let tables = needed_array(alloc, section, "table", 1, 64)?;
    Ok(Source {
        name,
        binlogs,
        start,
        tables,
    })
}

impl Element for Source {
    ghost use Rattle.dm_task.specs.TaskFile.{source, source_files};

    ghost reads = { source };

    ghost files = { source_files };

    fn read(
        alloc: Global,
        earlier: &[Source],
        place: Place<'_>,
        value: &Value,
    ) -> Result<Source, TaskFault> {
        let table = members_in(alloc, place, value, &SOURCE_KEYS)?;
        let path = path_of(alloc, place)?;
        let section = Section { path: &path, table };
        source_in(alloc, earlier, section)
    }
}

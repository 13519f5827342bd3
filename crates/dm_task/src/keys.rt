ghost use Rattle.std.specs.Prelude.{◌≡◌, [], IfOk, IsUtf8};
ghost use Rattle.std.specs.Option.{option_map, option_copied};
ghost use Rattle.dm_list.specs.Answer.{Answers};
ghost use Rattle.toml.specs.Data.{get_member};
ghost use Rattle.toml.specs.View.{view, table_view};
ghost use Rattle.dm_task.specs.Places.{path_of, texts};
ghost use Rattle.dm_task.specs.declared.place.Place.TheVariants as place;
ghost use Rattle.dm_task.specs.Reading.{is_memory, seen, is_listed, first_unlisted, listed, members_in, needed, optional};
ghost use Rattle.dm_task.specs.Fields.{whole, source_name, name, pattern, file_name};
ghost use Rattle.dm_task.specs.TaskFile.{text_at, is_reserved_at, database};

use crate::place::{Place, path_of, refused};
use crate::texts::{is_reserved, same_text};
use crate::values::{file_name, name, pattern, source_name, whole};
use crate::{TaskCause, TaskFault};
use dm_list::Bytes;
use dm_route::Pattern;
use dm_value::Name;
use std::alloc::Global;
use toml::{Table, Value};

/// A table of the file and its path.
#[derive(Clone, Copy)]
pub(crate) struct Section<'a> {
    pub(crate) path: &'a [u8],
    pub(crate) table: &'a Table,
}

/// What stands at a key.
pub(crate) fn member<'a>(table: &'a Table, key: &str) -> Option<&'a Value>
    ensures { option_map (λ value. view value.now) result ≡ get_member key.now (table_view table.now) }
{
    table.get(key)
}

/// The text that stands at a key, if one does.
fn text_at<'a>(table: &'a Table, key: &str) -> Option<&'a str>
    ensures { option_copied result ≡ text_at key.now (table_view table.now) }
{
    match member(table, key) {
        Some(value) => value.as_str(),
        None => None,
    }
}

fn is_listed(keys: &[&str], key: &str) -> bool
    ensures { result ≡ is_listed (texts keys.now) key.now }
{
    match keys {
        [] => false,
        [first, rest @ ..] => same_text(first.as_bytes(), key.as_bytes()) || is_listed(rest, key),
    }
}

/// The first key in byte order that isn't listed.
fn first_unlisted<'a>(table: &'a Table, keys: &[&str]) -> Option<&'a str>
    ensures { option_copied result ≡ first_unlisted (texts keys.now) (table_view table.now) }
{
    for (key, _value) in table.iter() {
        if !is_listed(keys, key.as_str()) {
            return Some(key.as_str());
        }
    }
    None
}

/// A table all of whose keys are listed.
pub(crate) fn listed<'a>(
    alloc: Global,
    path: &[u8],
    table: &'a Table,
    keys: &[&str],
) -> Result<&'a Table, TaskFault>
    ensures { Answers is_memory (seen (λ table. table_view table.now) result) (listed (texts keys.now) path.now (table_view table.now)) }
{
    match first_unlisted(table, keys) {
        None => Ok(table),
        Some(key) => refused(alloc, Place::Key { table: path, key }, TaskCause::Unknown),
    }
}

/// The same of a value, which has to be a table.
pub(crate) fn members_in<'a>(
    alloc: Global,
    place: Place<'_>,
    value: &'a Value,
    keys: &[&str],
) -> Result<&'a Table, TaskFault>
    ensures { Answers is_memory (seen (λ table. table_view table.now) result) (members_in (texts keys.now) (path_of place.entry) (view value.now)) }
{
    match value.as_table() {
        None => refused(alloc, place, TaskCause::Kind),
        Some(table) => listed(alloc, &path_of(alloc, place)?, table, keys),
    }
}

impl<'a> Section<'a> {
    /// The place of a key.
    pub(crate) fn at(self, key: &'a str) -> Place<'a>
        ensures { result ≡ place.Key self.entry.path key.entry }
    {
        Place::Key {
            table: self.path,
            key,
        }
    }
}

/// A whole number between two bounds, or another number where the key is absent.
pub(crate) fn whole_or(
    alloc: Global,
    section: Section<'_>,
    key: &str,
    default: u32,
    least: u32,
    greatest: u32,
) -> Result<u32, TaskFault>
    ensures { Answers is_memory result (optional default (whole least greatest) key.now section.entry.path.now (table_view section.entry.table.now)) }
{
    match member(section.table, key) {
        None => Ok(default),
        Some(value) => whole(alloc, section.at(key), value, least, greatest),
    }
}

pub(crate) fn needed_source_name(
    alloc: Global,
    section: Section<'_>,
    key: &str,
) -> Result<Bytes, TaskFault>
    ensures { Answers is_memory result (needed source_name key.now section.entry.path.now (table_view section.entry.table.now)) }
{
    match member(section.table, key) {
        None => refused(alloc, section.at(key), TaskCause::Absent),
        Some(value) => source_name(alloc, section.at(key), value),
    }
}

pub(crate) fn needed_name(alloc: Global, section: Section<'_>, key: &str) -> Result<Name, TaskFault>
    ensures { Answers is_memory result (needed name key.now section.entry.path.now (table_view section.entry.table.now)) }
{
    match member(section.table, key) {
        None => refused(alloc, section.at(key), TaskCause::Absent),
        Some(value) => name(alloc, section.at(key), value),
    }
}

pub(crate) fn needed_pattern(
    alloc: Global,
    section: Section<'_>,
    key: &str,
) -> Result<Pattern, TaskFault>
    ensures { Answers is_memory result (needed pattern key.now section.entry.path.now (table_view section.entry.table.now)) }
{
    match member(section.table, key) {
        None => refused(alloc, section.at(key), TaskCause::Absent),
        Some(value) => pattern(alloc, section.at(key), value),
    }
}

pub(crate) fn needed_file_name(
    alloc: Global,
    section: Section<'_>,
    key: &str,
) -> Result<Bytes, TaskFault>
    ensures value { Answers is_memory result (needed (file_name []) key.now section.entry.path.now (table_view section.entry.table.now)) }
    ensures text { IfOk result (λ name. IsUtf8 name) }
{
    match member(section.table, key) {
        None => refused(alloc, section.at(key), TaskCause::Absent),
        Some(value) => file_name(alloc, section.at(key), value),
    }
}

/// The database of a table, whose own name stands at another key. No table may be the program's own.
pub(crate) fn database(
    alloc: Global,
    section: Section<'_>,
    key: &str,
    table_key: &str,
) -> Result<Name, TaskFault>
    ensures { Answers is_memory result (database key.now table_key.now section.entry.path.now (table_view section.entry.table.now)) }
{
    let db = needed_name(alloc, section, key)?;
    if is_reserved_at(db.as_slice(), text_at(section.table, table_key)) {
        return refused(alloc, section.at(key), TaskCause::Range);
    }
    Ok(db)
}

fn is_reserved_at(db: &[u8], table: Option<&str>) -> bool
    ensures { result ≡ is_reserved_at db.now (option_copied table.entry) }
{
    match table {
        None => false,
        Some(table) => is_reserved(db, table.as_bytes()),
    }
}

ghost use Rattle.dm_list.specs.Answer.{Answers};
ghost use Rattle.toml.specs.View.{table_view};
ghost use Rattle.dm_task.specs.Reading.{is_memory, needed, array};
ghost use Rattle.dm_task.specs.Fields.{kind};
ghost use Rattle.dm_task.specs.TaskFile.{pair_in, route_in, filter_in, rules_in};

use crate::array::{Element, array, array_or_none};
use crate::keys::{Section, database, member, members_in, needed_name, needed_pattern};
use crate::kinds::set_of;
use crate::place::{Place, path_of, refused};
use crate::{TaskCause, TaskFault};
use dm_list::Sequence;
use dm_route::{EventKind, FilterRule, Pair, RouteRule, Rules};
use dm_schema::TableName;
use std::alloc::Global;
use toml::Value;

const ROUTE_KEYS: [&str; 4] = ["db", "table", "to_db", "to_table"];

const FILTER_KEYS: [&str; 3] = ["db", "table", "ignore"];

const ALLOW_KEYS: [&str; 2] = ["db", "table"];

fn pair_in(alloc: Global, section: Section<'_>) -> Result<Pair, TaskFault>
    ensures { Answers is_memory result (pair_in section.entry.path.now (table_view section.entry.table.now)) }
{
    let db = needed_pattern(alloc, section, "db")?;
    let table = needed_pattern(alloc, section, "table")?;
    Ok(Pair { db, table })
}

fn route_in(alloc: Global, section: Section<'_>) -> Result<RouteRule, TaskFault>
    ensures { Answers is_memory result (route_in section.entry.path.now (table_view section.entry.table.now)) }
{
    let pair = pair_in(alloc, section)?;
    let db = database(alloc, section, "to_db", "to_table")?;
    let table = needed_name(alloc, section, "to_table")?;
    Ok(RouteRule {
        pair,
        target: TableName { db, table },
    })
}

fn needed_kinds(
    alloc: Global,
    section: Section<'_>,
    key: &str,
) -> Result<Sequence<EventKind>, TaskFault>
    ensures { Answers is_memory result (needed (array kind) key.now section.entry.path.now (table_view section.entry.table.now)) }
{
    match member(section.table, key) {
        None => refused(alloc, section.at(key), TaskCause::Absent),
        Some(value) => array(alloc, section.at(key), value),
    }
}

fn filter_in(alloc: Global, section: Section<'_>) -> Result<FilterRule, TaskFault>
    ensures { Answers is_memory result (filter_in section.entry.path.now (table_view section.entry.table.now)) }
{
    let pair = pair_in(alloc, section)?;
    let kinds = needed_kinds(alloc, section, "ignore")?;
    Ok(FilterRule {
        pair,
        kinds: set_of(kinds.as_slice()),
    })
}

impl Element for RouteRule {
    ghost use Rattle.std.specs.Prelude.{[]};
    ghost use Rattle.dm_task.specs.TaskFile.{route};

    ghost reads = { route };

    ghost files = { λ _. [] };

    fn read(
        alloc: Global,
        _earlier: &[RouteRule],
        place: Place<'_>,
        value: &Value,
    ) -> Result<RouteRule, TaskFault> {
        let table = members_in(alloc, place, value, &ROUTE_KEYS)?;
        let path = path_of(alloc, place)?;
        let section = Section { path: &path, table };
        route_in(alloc, section)
    }
}

impl Element for FilterRule {
    ghost use Rattle.std.specs.Prelude.{[]};
    ghost use Rattle.dm_task.specs.TaskFile.{filter};

    ghost reads = { filter };

    ghost files = { λ _. [] };

    fn read(
        alloc: Global,
        _earlier: &[FilterRule],
        place: Place<'_>,
        value: &Value,
    ) -> Result<FilterRule, TaskFault> {
        let table = members_in(alloc, place, value, &FILTER_KEYS)?;
        let path = path_of(alloc, place)?;
        let section = Section { path: &path, table };
        filter_in(alloc, section)
    }
}

impl Element for Pair {
    ghost use Rattle.std.specs.Prelude.{[]};
    ghost use Rattle.dm_task.specs.TaskFile.{allow};

    ghost reads = { allow };

    ghost files = { λ _. [] };

    fn read(
        alloc: Global,
        _earlier: &[Pair],
        place: Place<'_>,
        value: &Value,
    ) -> Result<Pair, TaskFault> {
        let table = members_in(alloc, place, value, &ALLOW_KEYS)?;
        let path = path_of(alloc, place)?;
        let section = Section { path: &path, table };
        pair_in(alloc, section)
    }
}

/// The routes, the filters and the allow list of a task.
pub(crate) fn rules_in(alloc: Global, section: Section<'_>) -> Result<Rules, TaskFault>
    ensures { Answers is_memory result (rules_in section.entry.path.now (table_view section.entry.table.now)) }
{
    let routes = array_or_none(alloc, section, "route", 64)?;
    let filters = array_or_none(alloc, section, "filter", 64)?;
    let allow = array_or_none(alloc, section, "allow", 64)?;
    Ok(Rules {
        allow,
        routes,
        filters,
    })
}

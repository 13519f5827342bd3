ghost use Rattle.std.specs.Prelude.{◌≡◌, All, IfOk, IsUtf8};
ghost use Rattle.dm_list.specs.Answer.{Answers};
ghost use Rattle.toml.specs.View.{table_view};
ghost use Rattle.dm_task.specs.Reading.{is_memory};
ghost use Rattle.dm_task.specs.TaskFile.{sizes_in, task_in, counted, task_of, files_of, not_toml, listed_task};

use crate::array::needed_array;
use crate::keys::{Section, listed, needed_source_name, whole_or};
use crate::place::{Place, refused};
use crate::rules::rules_in;
use crate::sharding::{shards, targets};
use crate::texts::{is_marked, is_within};
use crate::{Task, TaskCause, TaskFault};
use std::alloc::Global;
use toml::Table;

const TASK_KEYS: [&str; 9] = [
    "name", "window", "batch", "lanes", "workers", "source", "route", "filter", "allow",
];

/// The numbers of a task.
#[derive(Clone, Copy)]
pub(crate) struct Sizes {
    pub(crate) window: u32,
    pub(crate) batch: u32,
    pub(crate) lanes: u32,
    pub(crate) workers: u32,
}

/// The task that a file's text says, or the first fault: that it isn't TOML; then, for each table, the top first and
/// inner ones where their key stands, a key that isn't known, in byte order, and then what is wrong at its keys, in the
/// order in which they are documented; and last that the shards or their targets are too few or too many.
pub fn read_task(alloc: Global, text: &[u8]) -> Result<Task, TaskFault>
    ensures task { Answers is_memory result (task_of text.now) }
    ensures text { IfOk result (λ task. All IsUtf8 (files_of task)) }
{
    if is_marked(text) {
        return not_toml(alloc);
    }
    match toml::table_from_slice(alloc, text) {
        Ok(table) => listed_task(alloc, &table),
        Err(error) => {
            if error.is_memory() {
                Err(TaskFault::Memory)
            } else {
                not_toml(alloc)
            }
        }
    }
}

fn not_toml(alloc: Global) -> Result<Task, TaskFault>
    ensures task { Answers is_memory result not_toml }
    ensures text { IfOk result (λ task. All IsUtf8 (files_of task)) }
{
    let place = Place::Key {
        table: b"",
        key: "-",
    };
    refused(alloc, place, TaskCause::NotToml)
}

/// The task that a document says.
fn listed_task(alloc: Global, table: &Table) -> Result<Task, TaskFault>
    ensures task { Answers is_memory result (listed_task (table_view table.now)) }
    ensures text { IfOk result (λ task. All IsUtf8 (files_of task)) }
{
    let table = listed(alloc, b"", table, &TASK_KEYS)?;
    task_in(alloc, Section { path: b"", table })
}

fn task_in(alloc: Global, section: Section<'_>) -> Result<Task, TaskFault>
    ensures task { Answers is_memory result (task_in section.entry.path.now (table_view section.entry.table.now)) }
    ensures text { IfOk result (λ task. All IsUtf8 (files_of task)) }
{
    let name = needed_source_name(alloc, section, "name")?;
    let sizes = sizes_in(alloc, section)?;
    let sources = needed_array(alloc, section, "source", 1, 64)?;
    let rules = rules_in(alloc, section)?;
    let task = Task {
        name,
        window: sizes.window,
        batch: sizes.batch,
        lanes: sizes.lanes,
        workers: sizes.workers,
        sources,
        rules,
    };
    counted(alloc, task)
}

fn sizes_in(alloc: Global, section: Section<'_>) -> Result<Sizes, TaskFault>
    ensures { Answers is_memory result (sizes_in section.entry.path.now (table_view section.entry.table.now)) }
{
    let window = whole_or(alloc, section, "window", 1000, 1, 100_000)?;
    let batch = whole_or(alloc, section, "batch", 100, 1, 1000)?;
    let lanes = whole_or(alloc, section, "lanes", 4, 1, 16)?;
    let workers = whole_or(alloc, section, "workers", 4, 1, 32)?;
    Ok(Sizes {
        window,
        batch,
        lanes,
        workers,
    })
}

/// The task, if it has 1 to 64 shards, which go to at most 16 tables.
fn counted(alloc: Global, task: Task) -> Result<Task, TaskFault>
    ensures task { Answers is_memory result (counted task) }
    ensures same { IfOk result (λ counted. counted ≡ task) }
{
    let place = Place::Key {
        table: b"",
        key: "source",
    };
    if !is_within(shards(alloc, &task)?.len(), 1, 64) {
        return refused(alloc, place, TaskCause::Shards);
    }
    if 16 < targets(alloc, &task)?.len() {
        return refused(alloc, place, TaskCause::Targets);
    }
    Ok(task)
}

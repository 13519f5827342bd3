ghost use Rattle.std.specs.Prelude.{◌≡◌, ◌^◌, ◌-◌, min, Some, length, map, option_map, IfOk};
ghost use Rattle.std.specs.Option.{option_copied};
ghost use Rattle.dm_track.specs.Builds.{bad_of};
ghost use Rattle.dm_track.specs.Histories.{ddl_numbers, ddls_before, item_of, schema_at, values_from, values_of};
ghost use Rattle.dm_track.specs.Steps.{finished};

use crate::beginning::HistoryHead;
use dm_dump::InsertOrder;
use dm_files::NamedFile;
use dm_list::{Bytes, Copied, Sequence};
use dm_schema::{Schema, TableName};
use dm_stream::{BadCause, LogFault};
use dm_walk::{Item, Track};
use std::alloc::{AllocError, Global};
use std::marker::Model;

/// Why a history ends: the cause, the name of its file, and the byte at which it shows.
#[derive(Debug, Drop)]
pub struct Bad {
    pub cause: BadCause,
    pub file: Bytes,
    pub at: u32,
}

/// The orders of columns that the INSERTs of a file have.
#[derive(Debug, Drop)]
pub struct FileOrders {
    /// The file's number among the task's files.
    pub number: u32,
    pub orders: Sequence<InsertOrder>,
}

/// The history of a shard: the rows of its dump, then what its source's binlogs say of its table, up to what is wrong.
/// Items are numbered from 1; at position p items 1 to p are done.
#[derive(Debug, Drop)]
pub struct History {
    name: Bytes,
    target: TableName,
    /// The schema of its dump.
    first: Schema,
    /// The schema behind each statement, in turn.
    later: Sequence<Schema>,
    items: Sequence<Item>,
    orders: Sequence<FileOrders>,
    bad: Option<Bad>,
    /// The numbers of its statements among its items.
    ddls: Sequence<u64>,
}

impl Model for History {
    ghost use Rattle.std.specs.Prelude.{◌≡◌};
    ghost use Rattle.dm_track.specs.Histories as spec;
    ghost use Rattle.dm_track.specs.Histories.{ddl_numbers};

    ghost Value = { spec.History };

    ghost view = { λ h. record { name = h.name; target = h.target; first = h.first; later = h.later; items = h.items; orders = h.orders; bad = h.bad } };

    ghost invariant = { λ h. h.ddls ≡ ddl_numbers 1 h.items };
}

/// The numbers of the statements among items, which are counted from 1.
fn ddl_numbers(alloc: Global, items: &[Item]) -> Result<Vec<u64>, AllocError>
    ensures { IfOk result (λ numbers. numbers.items ≡ ddl_numbers 1 items.now) }
{
    let mut numbers = Vec::new(alloc);
    let mut number = 1;
    for item in items {
        if let Item::Ddl(_) = item {
            numbers.push(number)?;
        }
        number += 1;
    }
    Ok(numbers)
}

/// Why a history ends, with the name of the file.
fn bad_of(alloc: Global, files: &[NamedFile], fault: LogFault) -> Result<Bad, AllocError>
    ensures { IfOk result (λ bad. bad ≡ bad_of (map (λ f. f.name) files.now) fault) }
{
    let file = match files.get(fault.file as usize) {
        Some(file) => file.name.copy(alloc)?,
        None => Bytes::new(Vec::new(alloc)),
    };
    Ok(Bad {
        cause: fault.cause,
        file,
        at: fault.at,
    })
}

fn bad_by(
    alloc: Global,
    files: &[NamedFile],
    fault: Option<LogFault>,
) -> Result<Option<Bad>, AllocError>
    ensures { IfOk result (λ bad. bad ≡ option_map (bad_of (map (λ f. f.name) files.now)) fault) }
{
    match fault {
        Some(fault) => Ok(Some(bad_of(alloc, files, fault)?)),
        None => Ok(None),
    }
}

/// How many values the rows of items have, by the schemas at them.
fn values_from(first: &Schema, later: &[Schema], items: &[Item]) -> u64
    ensures { result ≡ min (values_from first.now later.now items.now) (2 ^ 64 - 1) }
{
    let mut count: u64 = 0;
    let mut layout = first;
    let mut left = later;
    for item in items {
        match item {
            Item::Row(_) => count = count.saturating_add(layout.columns().len() as u64),
            Item::Ddl(_) => {
                if let [next, behind @ ..] = left {
                    layout = next;
                    left = behind;
                }
            }
        }
    }
    count
}

/// The history that a walk came to.
pub fn finished(
    alloc: Global,
    files: &[NamedFile],
    head: HistoryHead,
    track: Track,
) -> Result<History, AllocError>
    ensures { IfOk result (λ history. history ≡ finished (map (λ f. f.name) files.now) head track) }
{
    let ddls = ddl_numbers(alloc, track.items.as_slice())?;
    let bad = bad_by(alloc, files, track.fault)?;
    Ok(History {
        name: head.name,
        target: head.target,
        first: track.first,
        later: track.later,
        items: track.items,
        orders: head.orders,
        bad,
        ddls: Sequence::new(ddls),
    })
}

impl History {
    /// The source's name, a blank, and the quoted name of the table.
    pub fn name(&self) -> &Bytes
        ensures { result.now ≡ self.now.name }
    {
        &self.name
    }

    /// The table that its rows go to.
    pub fn target(&self) -> &TableName
        ensures { result.now ≡ self.now.target }
    {
        &self.target
    }

    /// The orders of columns of its dump's files.
    pub(crate) fn orders(&self) -> &[FileOrders]
        ensures { result.now ≡ self.now.orders }
    {
        self.orders.as_slice()
    }

    /// How many items it has.
    pub fn len(&self) -> u64
        ensures { result ≡ length self.now.items }
    {
        self.items.len()
    }

    /// The item of a number, from 1 on.
    pub fn item(&self, number: u64) -> Option<&Item>
        ensures { option_copied result ≡ item_of self.now number }
    {
        self.items.get(number.checked_sub(1)?)
    }

    /// How many statements are among the items that are done at a position.
    fn ddls_before(&self, position: u64) -> u64
        ensures { result ≡ ddls_before position self.now.items }
    {
        let ddls = self.ddls.as_slice();
        ddls.partition_point(|number| *number <= position) as u64
    }

    /// The schema at a position: behind as many statements as are done.
    pub fn schema_at(&self, position: u64) -> &Schema
        ensures { result.now ≡ schema_at self.now position }
    {
        match self.ddls_before(position).checked_sub(1) {
            Some(place) => self.later.get(place).unwrap_or(&self.first),
            None => &self.first,
        }
    }

    /// How many values its rows have; the largest number, where there are more.
    pub fn values(&self) -> u64
        ensures { result ≡ min (values_of self.now) (2 ^ 64 - 1) }
    {
        values_from(&self.first, self.later.as_slice(), self.items.as_slice())
    }

    /// Why it ends before its files do.
    pub fn bad(&self) -> Option<&Bad>
        ensures { option_copied result ≡ self.now.bad }
    {
        self.bad.as_ref()
    }
}

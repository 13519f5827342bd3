ghost use Rattle.std.specs.Prelude.{◌≡◌, ◌<◌, ◌^◌, length, position, IfSome, IsTrue};
ghost use Rattle.dm_track.specs.Builds.{Inputs, is_table, table_of};
ghost use Rattle.dm_track.specs.Changes.{are_kept};

use crate::history::History;
use dm_files::Files;
use dm_list::Sequence;
use dm_schema::TableName;
use dm_task::Task;
use std::marker::Model;

/// What a run is given: the task, its files, the history of each shard, and the tables that they go to.
#[derive(Debug, Drop)]
pub struct Inputs {
    task: Task,
    files: Files,
    histories: Sequence<History>,
    tables: Sequence<TableName>,
}

impl Model for Inputs {
    ghost use Rattle.std.specs.Prelude.{◌<◌, ◌^◌, length, IsTrue};
    ghost use Rattle.dm_track.specs.Builds as spec;
    ghost use Rattle.dm_track.specs.Changes.{are_kept};

    ghost Value = { spec.Inputs };

    ghost view = { λ i. record { task = i.task; files = i.files; histories = i.histories; tables = i.tables } };

    ghost invariant = { λ i. IsTrue (are_kept i.files i.histories) × (length i.tables < 2 ^ 32) };

    ghost inverse = { λ i. record { task = i.task; files = i.files; histories = i.histories; tables = i.tables } };
}

fn is_table(target: &TableName, table: &TableName) -> bool
    ensures { result ≡ is_table target.now table.now }
{
    table.db == target.db && table.table == target.table
}

fn position_of(target: &TableName, tables: &[TableName]) -> Option<usize>
    ensures value { result ≡ position (is_table target.now) tables.now }
    ensures within { IfSome result (λ place. place < length tables.now) }
{
    tables.iter().position(|table| is_table(target, table))
}

/// The number of a table among others.
fn number_of(target: &TableName, tables: &[TableName]) -> Option<u32>
    requires { length tables.now < 2 ^ 32 }
    ensures { result ≡ position (is_table target.now) tables.now }
{
    match position_of(target, tables) {
        Some(place) => Some(place as u32),
        None => None,
    }
}

/// What a run is given, of histories whose rows can be read.
pub fn inputs_of(
    task: Task,
    files: Files,
    histories: Sequence<History>,
    tables: Sequence<TableName>,
) -> Inputs
    requires kept { IsTrue (are_kept files histories) }
    requires tables { length tables < 2 ^ 32 }
    ensures { result ≡ record { task = task; files = files; histories = histories; tables = tables } }
{
    Inputs {
        task,
        files,
        histories,
        tables,
    }
}

impl Inputs {
    pub fn task(&self) -> &Task
        ensures { result.now ≡ self.now.task }
    {
        &self.task
    }

    /// The task's files; a place in a history names one by its number.
    pub fn files(&self) -> &Files
        ensures { result.now ≡ self.now.files }
    {
        &self.files
    }

    /// The histories of the shards, by their numbers. Each row in them can be read.
    pub fn histories(&self) -> &Sequence<History>
        ensures histories { result.now ≡ self.now.histories }
        ensures kept { IsTrue (are_kept self.now.files self.now.histories) }
    {
        &self.histories
    }

    /// The tables that the shards go to, in byte order.
    pub fn tables(&self) -> &Sequence<TableName>
        ensures { result.now ≡ self.now.tables }
    {
        &self.tables
    }

    /// The number of a shard's target among the tables; none where there is no such shard.
    pub fn table_of(&self, shard: u32) -> Option<u32>
        ensures { result ≡ table_of self.now shard }
    {
        match self.histories.get(u64::from(shard)) {
            Some(history) => number_of(history.target(), self.tables.as_slice()),
            None => None,
        }
    }
}

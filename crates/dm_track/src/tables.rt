//! The dumps of a source's shards.

ghost use Rattle.std.specs.Prelude.{◌≡◌, ⊤, ◌+◌, ◌-◌, ◌^◌, ◌≤◌, ◌∷◌, List, length, IfOk, IfErr, IsTrue, MatchBool};
ghost use Rattle.std.specs.List.{flat_map, list_all};
ghost use Rattle.dm_list.specs.Answer.{Answers};
ghost use Rattle.dm_files.specs.Files.{table_files, are_short};
ghost use Rattle.dm_snapshot.specs.Snapshots.{DumpReadings, AreDumpReadings, snapshot_of};
ghost use Rattle.dm_task.specs.declared.task.SourceTable.{SourceTable};
ghost use Rattle.dm_track.specs.Builds.{dump_fault, file_orders, is_memory};
ghost use Rattle.dm_track.specs.Steps.{beginning_by, beginning_of, beginnings, is_readable, with_front};

use crate::beginning::{Beginning, HistoryHead};
use crate::fault::BuildFault;
use crate::history::FileOrders;
use crate::shard::{shard_name, shard_of};
use dm_files::{NamedFile, table_count};
use dm_list::{Bytes, Sequence};
use dm_route::Rules;
use dm_snapshot::{RowsFile, Snapshot, SnapshotFault, read_snapshot};
use dm_task::{Shard, SourceTable};
use dm_walk::begun;
use std::alloc::{AllocError, Global};

fn dump_fault(fault: SnapshotFault) -> BuildFault
    ensures { result ≡ dump_fault fault }
{
    match fault {
        SnapshotFault::Dump { file, at, cause } => BuildFault::Dump { file, at, cause },
        SnapshotFault::Memory => BuildFault::Memory,
    }
}

fn file_orders(file: RowsFile) -> FileOrders
    ensures { result ≡ file_orders file }
{
    let RowsFile { number, inserts } = file;
    FileOrders {
        number,
        orders: inserts.orders,
    }
}

/// A shard's history with the rows of its dump.
fn begin(alloc: Global, shard: Shard, snapshot: Snapshot) -> Result<Beginning, AllocError>
    ensures { IfOk result (λ beginning. beginning ≡ beginning_of shard snapshot) }
{
    let name = shard_name(alloc, &shard)?;
    let track = begun(
        alloc,
        shard.name,
        snapshot.schema,
        snapshot.files.as_slice(),
    )?;
    let files = snapshot.files.into_vec();
    let orders = files.into_iter().map(file_orders).collect(alloc)?;
    Ok(Beginning {
        head: HistoryHead {
            name,
            target: shard.target,
            orders: Sequence::new(orders),
        },
        track,
    })
}

fn read_beginning(
    alloc: Global,
    files: &[NamedFile],
    table: &SourceTable,
    shard: Shard,
    number: u32,
) -> Result<Beginning, BuildFault>
    requires short { IsTrue (are_short files.now) }
    requires numbers { number + length (table_files table.now) ≤ 2 ^ 32 - 1 }
    ensures beginning { (r : DumpReadings) → AreDumpReadings r → Answers is_memory result (beginning_by shard (snapshot_of r files.now table.now number)) }
    ensures readable { IfOk result (λ beginning. IsTrue (is_readable files.now beginning)) }
{
    match read_snapshot(alloc, files, table, number) {
        Ok(snapshot) => Ok(begin(alloc, shard, snapshot)?),
        Err(fault) => Err(dump_fault(fault)),
    }
}

/// Reads the dump of a table, if it is a shard, and puts its history behind others.
fn push_table(
    alloc: Global,
    files: &[NamedFile],
    rules: &Rules,
    source: &Bytes,
    table: &SourceTable,
    number: u32,
    made: &mut Vec<Beginning>,
) -> Result<(), BuildFault>
    requires short { IsTrue (are_short files.now) }
    requires numbers { number + length (table_files table.now) ≤ 2 ^ 32 - 1 }
    ensures made { IfOk result (λ _. (r : DumpReadings) → AreDumpReadings r → (tables : List SourceTable)
        → with_front made.new.items (beginnings r files.now rules.now source.now (number + length (table_files table.now)) tables)
        ≡ with_front made.old.items (beginnings r files.now rules.now source.now number (table.now ∷ tables))) }
    ensures fault { IfErr result (λ e. MatchBool (is_memory e) ⊤ ((r : DumpReadings) → AreDumpReadings r → (tables : List SourceTable)
        → with_front made.old.items (beginnings r files.now rules.now source.now number (table.now ∷ tables)) ≡ Err e)) }
    ensures readable { IfOk result (λ _. IsTrue (list_all (is_readable files.now) made.old.items) → IsTrue (list_all (is_readable files.now) made.new.items)) }
{
    match shard_of(alloc, rules, source, table)? {
        Some(shard) => {
            let beginning = read_beginning(alloc, files, table, shard, number)?;
            made.push(beginning)?;
            Ok(())
        }
        None => Ok(()),
    }
}

/// The histories of a source's shards with the rows of their dumps; its tables' first file has this number.
pub fn read_tables(
    alloc: Global,
    files: &[NamedFile],
    rules: &Rules,
    source: &Bytes,
    tables: &[SourceTable],
    number: u32,
) -> Result<Sequence<Beginning>, BuildFault>
    requires short { IsTrue (are_short files.now) }
    requires numbers { number + length (flat_map table_files tables.now) ≤ 2 ^ 32 - 1 }
    ensures beginnings { (r : DumpReadings) → AreDumpReadings r
        → Answers is_memory result (beginnings r files.now rules.now source.now number tables.now) }
    ensures readable { IfOk result (λ made. IsTrue (list_all (is_readable files.now) made)) }
{
    let mut made = Vec::new(alloc);
    let mut next = number;
    for table in tables {
        push_table(alloc, files, rules, source, table, next, &mut made)?;
        next += table_count(table) as u32;
    }
    Ok(Sequence::new(made))
}

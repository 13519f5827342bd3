ghost use Rattle.std.specs.Prelude.{◌≡◌, ◌+◌, ◌-◌, ◌≤◌, ◌^◌, length, IfOk, IsTrue};
ghost use Rattle.dm_list.specs.Answer.{Answers};
ghost use Rattle.dm_files.specs.Files.{table_files, are_short};
ghost use Rattle.dm_snapshot.specs.Snapshots.{DumpReadings, AreDumpReadings, snapshot_of, is_memory, is_readable};

use crate::create::read_schema;
use crate::fault::refusal;
use crate::rows::read_files;
use crate::snapshot::{Snapshot, SnapshotFault};
use dm_files::{NamedFile, bytes_of};
use dm_task::SourceTable;
use std::alloc::Global;

/// The dump of a table, whose first file has this number: the schema of its CREATE TABLE, and the places of its rows. A
/// fault is that of the first file that has one, and there the one of the least place.
pub fn read_snapshot(
    alloc: Global,
    files: &[NamedFile],
    table: &SourceTable,
    number: u32,
) -> Result<Snapshot, SnapshotFault>
    requires short { IsTrue (are_short files.now) }
    requires numbers { number + length (table_files table.now) ≤ 2 ^ 32 - 1 }
    // What statements and dumps say is the grammars'.
    ensures snapshot { (r : DumpReadings) → AreDumpReadings r → Answers is_memory result (snapshot_of r files.now table.now number) }
    ensures exist { (r : DumpReadings) × AreDumpReadings r }
    ensures readable { IfOk result (λ snapshot. IsTrue (is_readable files.now snapshot)) }
{
    match read_schema(alloc, bytes_of(files, number)) {
        Ok(schema) => {
            let rows = read_files(alloc, files, table, &schema, number + 1)?;
            Ok(Snapshot {
                schema,
                files: rows,
            })
        }
        Err(fault) => Err(refusal(alloc, &table.create, fault)),
    }
}

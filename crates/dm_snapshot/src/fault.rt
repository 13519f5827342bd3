ghost use Rattle.dm_snapshot.specs.Steps.{IsRefusal};

use crate::snapshot::SnapshotFault;
use dm_dump::DumpFault;
use dm_list::{Bytes, Copied};
use std::alloc::Global;

/// A fault of the file of this name.
pub fn refusal(alloc: Global, name: &Bytes, fault: DumpFault) -> SnapshotFault
    ensures { IsRefusal name.now fault result }
{
    match fault {
        DumpFault::Memory => SnapshotFault::Memory,
        DumpFault::At { at, cause } => match name.copy(alloc) {
            Ok(file) => SnapshotFault::Dump { file, at, cause },
            Err(_) => SnapshotFault::Memory,
        },
    }
}

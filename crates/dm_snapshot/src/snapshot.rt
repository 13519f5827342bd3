use dm_dump::{DumpCause, Inserts};
use dm_list::{Bytes, Sequence};
use dm_schema::Schema;
use std::alloc::AllocFailed;

/// The rows of one file of a table's dump.
#[derive(Debug, Drop)]
pub struct RowsFile {
    /// The file's number among the task's files.
    pub number: u32,
    pub inserts: Inserts,
}

/// A table as it was dumped: its schema, and where its rows stand, file by file.
#[derive(Debug, Drop)]
pub struct Snapshot {
    pub schema: Schema,
    pub files: Sequence<RowsFile>,
}

/// Why a table's dump can't be read.
#[derive(Debug, Drop)]
pub enum SnapshotFault {
    /// The first file with a fault, of the file of the CREATE TABLE and then those of the rows, and its fault of the least
    /// place.
    Dump {
        file: Bytes,
        at: u32,
        cause: DumpCause,
    },
    Memory,
}

impl<T: Drop> From<AllocFailed<T>> for SnapshotFault {
    ghost use Rattle.std.specs.Prelude.{◌≡◌};
    ghost use Rattle.dm_snapshot.specs.declared.snapshot.SnapshotFault.TheVariants.{Memory};

    ghost from_gives = { λ _ fault. fault ≡ Memory };

    fn from(_: AllocFailed<T>) -> SnapshotFault {
        SnapshotFault::Memory
    }
}

ghost use Rattle.std.specs.Prelude.{◌≡◌};

use dm_value::Name;
use std::alloc::{AllocError, AllocFailed};

/// Why a table stays as it is.
#[derive(Debug, Drop, PartialEq, Eq)]
pub enum TableFault {
    /// There is no such table.
    NoTable,
    /// A table that is to be made is there.
    TableExists,
    /// The primary key would be another.
    PrimaryDiffers,
    /// An operation names a column that the table lacks.
    UnknownColumn { column: Name },
    /// A value doesn't fit its column, or a column that is not named has nothing to be filled with.
    Unfit { column: Name },
    /// An update or a deletion finds no row of its key.
    Missing,
    /// Another row has these values of a key: 0 is the primary key, k the k-th unique key in byte order of names.
    Duplicate { key: u8 },
    Memory,
}

impl From<AllocError> for TableFault {
    ghost use Rattle.dm_table.specs.declared.fault.TableFault.TheVariants.{Memory};

    ghost from_gives = { λ _ fault. fault ≡ Memory };

    fn from(_: AllocError) -> TableFault {
        TableFault::Memory
    }
}

impl<T: Drop> From<AllocFailed<T>> for TableFault {
    ghost use Rattle.dm_table.specs.declared.fault.TableFault.TheVariants.{Memory};

    ghost from_gives = { λ _ fault. fault ≡ Memory };

    fn from(_: AllocFailed<T>) -> TableFault {
        TableFault::Memory
    }
}

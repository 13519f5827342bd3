ghost use Rattle.std.specs.Prelude.{◌≡◌};

use dm_value::Name;
use std::alloc::{AllocError, AllocFailed};

/// Why bytes aren't a row of a table map and a schema, in the order in which it is looked for.
#[derive(Debug, Drop, PartialEq, Eq)]
pub enum RowFault {
    /// The table map and the schema differ in their number of columns.
    Count,
    /// A column's type code or metadata isn't that of its kind.
    TypeDiffers { column: Name },
    /// The bytes end before the row does.
    Short,
    /// A group of a decimal has more digits than it may have.
    BadDecimal { column: Name },
    /// A day or a moment is out of range.
    BadDate { column: Name },
    /// A value isn't one of the column's kind, or NULL isn't one of the column's.
    Unfit { column: Name },
    Memory,
}

impl From<AllocError> for RowFault {
    ghost use Rattle.dm_decode.specs.declared.fault.RowFault.TheVariants.{Memory};

    ghost from_gives = { λ _ fault. fault ≡ Memory };

    fn from(_error: AllocError) -> RowFault {
        RowFault::Memory
    }
}

impl<T: Drop> From<AllocFailed<T>> for RowFault {
    ghost use Rattle.dm_decode.specs.declared.fault.RowFault.TheVariants.{Memory};

    ghost from_gives = { λ _ fault. fault ≡ Memory };

    fn from(_error: AllocFailed<T>) -> RowFault {
        RowFault::Memory
    }
}

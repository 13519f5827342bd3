ghost use Rattle.std.specs.Prelude.{◌≡◌};

use std::alloc::AllocError;

/// Why a schema can't be made.
#[derive(Clone, Copy, Debug, PartialEq, Eq)]
pub enum SchemaFault {
    /// It has more than 256 columns or 16 unique keys.
    TooMany,
    /// A name of a column or of a key stands twice, or a column stands twice in one key.
    Duplicate,
    /// The primary key is empty.
    NoPrimary,
    /// A key names a column that isn't there.
    UnknownColumn,
    /// A column of the primary key is nullable.
    NullablePrimary,
    /// A constant default doesn't fit its column.
    DefaultUnfit,
    Memory,
}

/// Why a change has no effect on a schema.
#[derive(Clone, Copy, Debug, PartialEq, Eq)]
pub enum EffectFault {
    /// A column, a key or the table would get another name.
    Renames,
    /// The primary key would be another.
    PrimaryChange,
    /// The change, its key or its spot names a column that isn't there.
    UnknownColumn,
    /// An added column's name is there.
    ColumnExists,
    /// A column of a key is dropped.
    KeyColumn,
    /// One statement drops and adds a column of one name.
    Readd,
    /// The old and the new kind aren't comparable.
    FamilyChange,
    /// An added column has nothing to fill the old rows with.
    NoFill,
    /// An added unique key's name is there.
    KeyExists,
    Made(SchemaFault),
    Memory,
}

impl From<AllocError> for EffectFault {
    ghost use Rattle.dm_schema.specs.declared.fault.EffectFault.TheVariants.{Memory};

    ghost from_gives = { λ _ fault. fault ≡ Memory };

    fn from(_error: AllocError) -> EffectFault {
        EffectFault::Memory
    }
}

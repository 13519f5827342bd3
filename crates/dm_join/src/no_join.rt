ghost use Rattle.std.specs.Prelude.{◌≡◌};
ghost use Rattle.dm_join.specs.declared.no_join.NoJoin.TheVariants.{Memory};

use dm_value::Name;
use std::alloc::{AllocError, AllocFailed};

/// Why schemas have no join.
#[derive(Clone, Copy, Debug, PartialEq, Eq)]
pub enum JoinCause {
    /// The primary keys aren't the same list. The column is the first of the first schema's key.
    Primary,
    /// Two schemas have the column in different families of kinds.
    Family,
    /// They have it in one family, with kinds that aren't comparable.
    KindDiffers,
    /// They have it with different defaults.
    DefaultDiffers,
    /// Some schema lacks it, and the joined column has no constant fill for missing.
    MissingNoFill,
}

/// The first reason that schemas have no join: the primary keys first, then by column in byte order of names.
#[derive(Debug, Drop, PartialEq, Eq)]
pub enum NoJoin {
    At { column: Name, cause: JoinCause },
    Memory,
}

impl From<AllocError> for NoJoin {
    ghost from_gives = { λ _ fault. fault ≡ Memory };

    fn from(_error: AllocError) -> NoJoin {
        NoJoin::Memory
    }
}

impl<T: Drop> From<AllocFailed<T>> for NoJoin {
    ghost from_gives = { λ _ fault. fault ≡ Memory };

    fn from(_error: AllocFailed<T>) -> NoJoin {
        NoJoin::Memory
    }
}

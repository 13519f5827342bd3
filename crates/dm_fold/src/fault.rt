ghost use Rattle.std.specs.Prelude.{◌≡◌};

use std::alloc::{AllocError, AllocFailed};

/// Why a shard has no rows at a position.
#[derive(Clone, Copy, Debug, PartialEq, Eq)]
pub enum FoldFault {
    /// The first item, counted from 1, that can't be carried out: a row comes whose primary key or unique values are
    /// there, one goes that isn't there as it is given, or a statement comes that the rows don't fit.
    Conflict { item: u64 },
    Memory,
}

impl From<AllocError> for FoldFault {
    ghost use Rattle.dm_fold.specs.declared.fault.FoldFault.TheVariants.{Memory};

    ghost from_gives = { λ _ fault. fault ≡ Memory };

    fn from(_: AllocError) -> FoldFault {
        FoldFault::Memory
    }
}

impl<T: Drop> From<AllocFailed<T>> for FoldFault {
    ghost use Rattle.dm_fold.specs.declared.fault.FoldFault.TheVariants.{Memory};

    ghost from_gives = { λ _ fault. fault ≡ Memory };

    fn from(_: AllocFailed<T>) -> FoldFault {
        FoldFault::Memory
    }
}

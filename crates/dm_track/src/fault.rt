use dm_dump::DumpCause;
use dm_list::Bytes;
use std::alloc::{AllocError, AllocFailed};

/// Why there are no histories.
#[derive(Debug, Drop)]
pub enum BuildFault {
    /// The first fault of a dump: shard by shard, and in each the file of its CREATE TABLE before those of its rows.
    Dump {
        file: Bytes,
        at: u32,
        cause: DumpCause,
    },
    /// The histories have more than 4,000,000 items together.
    Items,
    /// The rows of all items have more than 64,000,000 values together.
    Values,
    Memory,
}

impl From<AllocError> for BuildFault {
    ghost use Rattle.std.specs.Prelude.{◌≡◌};
    ghost use Rattle.dm_track.specs.declared.fault.BuildFault.TheVariants.{Memory};

    ghost from_gives = { λ _ fault. fault ≡ Memory };

    fn from(_: AllocError) -> BuildFault {
        BuildFault::Memory
    }
}

impl<T: Drop> From<AllocFailed<T>> for BuildFault {
    ghost use Rattle.std.specs.Prelude.{◌≡◌};
    ghost use Rattle.dm_track.specs.declared.fault.BuildFault.TheVariants.{Memory};

    ghost from_gives = { λ _ fault. fault ≡ Memory };

    fn from(_: AllocFailed<T>) -> BuildFault {
        BuildFault::Memory
    }
}

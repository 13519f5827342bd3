use std::alloc::{AllocError, AllocFailed};

/// Why a record can't be read.
#[derive(Clone, Copy, Debug, PartialEq, Eq)]
pub enum MetaFault {
    /// The text isn't that of such a record.
    NotMeta,
    Memory,
}

impl From<AllocError> for MetaFault {
    ghost use Rattle.std.specs.Prelude.{◌≡◌};
    ghost use Rattle.dm_meta.specs.declared.fault.MetaFault.TheVariants.{Memory};

    ghost from_gives = { λ _ fault. fault ≡ Memory };

    fn from(_: AllocError) -> MetaFault {
        MetaFault::Memory
    }
}

impl<T: Drop> From<AllocFailed<T>> for MetaFault {
    ghost use Rattle.std.specs.Prelude.{◌≡◌};
    ghost use Rattle.dm_meta.specs.declared.fault.MetaFault.TheVariants.{Memory};

    ghost from_gives = { λ _ fault. fault ≡ Memory };

    fn from(_: AllocFailed<T>) -> MetaFault {
        MetaFault::Memory
    }
}

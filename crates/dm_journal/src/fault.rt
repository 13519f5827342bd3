ghost use Rattle.std.specs.Prelude.{◌≡◌};
ghost use Rattle.dm_journal.specs.Answers.{fault_at};

use std::alloc::{AllocError, AllocFailed};

/// Why a journal's bytes have no content.
#[derive(Clone, Copy, Debug, PartialEq, Eq)]
pub enum ContentFault {
    /// What begins at this byte is no record, or one that nothing can be made of.
    Bad { at: u32 },
    Memory,
}

impl From<AllocError> for ContentFault {
    ghost use Rattle.std.specs.Prelude.{◌≡◌};
    ghost use Rattle.dm_journal.specs.declared.fault.ContentFault.TheVariants.{Memory};

    ghost from_gives = { λ _ fault. fault ≡ Memory };

    fn from(_: AllocError) -> ContentFault {
        ContentFault::Memory
    }
}

impl<T: Drop> From<AllocFailed<T>> for ContentFault {
    ghost use Rattle.std.specs.Prelude.{◌≡◌};
    ghost use Rattle.dm_journal.specs.declared.fault.ContentFault.TheVariants.{Memory};

    ghost from_gives = { λ _ fault. fault ≡ Memory };

    fn from(_: AllocFailed<T>) -> ContentFault {
        ContentFault::Memory
    }
}

/// Why a record is not carried out.
#[derive(Clone, Copy, Debug, PartialEq, Eq)]
pub(crate) enum CarryFault {
    /// It is no record, or its call has no effect.
    Bad,
    Memory,
}

impl CarryFault {
    /// The fault of a journal whose record at this byte isn't carried out.
    pub(crate) fn at(self, at: u32) -> ContentFault
        ensures { result ≡ fault_at self at }
    {
        match self {
            CarryFault::Bad => ContentFault::Bad { at },
            CarryFault::Memory => ContentFault::Memory,
        }
    }
}

impl From<AllocError> for CarryFault {
    ghost use Rattle.std.specs.Prelude.{◌≡◌};
    ghost use Rattle.dm_journal.specs.declared.fault.CarryFault.TheVariants.{Memory};

    ghost from_gives = { λ _ fault. fault ≡ Memory };

    fn from(_: AllocError) -> CarryFault {
        CarryFault::Memory
    }
}

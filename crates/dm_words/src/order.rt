ghost use Rattle.std.specs.Prelude.{◌≡◌};

use dm_list::{Bytes, Sequence};
use std::alloc::AllocError;

/// What the words ask for. Names of files are the words' bytes.
#[derive(Debug, Drop, PartialEq, Eq)]
pub enum Order {
    /// From 1 to 64 files.
    Load {
        files: Sequence<Bytes>,
    },
    CheckTask {
        file: Bytes,
    },
    Run {
        file: Bytes,
        limit: Option<u32>,
        /// From 1 to 32.
        workers: Option<u32>,
        /// At least 1.
        stop_after: Option<u32>,
    },
    Show,
    Gen {
        number: u32,
        /// From 1 to 32.
        workers: Option<u32>,
    },
}

/// Why nothing is read of the words.
#[derive(Clone, Copy, Debug, PartialEq, Eq)]
pub enum WordFault {
    /// The words are no order.
    Usage,
    Memory,
}

impl From<AllocError> for WordFault {
    ghost use Rattle.dm_words.specs.declared.order.WordFault.TheVariants.{Memory};

    ghost from_gives = { λ _ fault. fault ≡ Memory };

    fn from(_error: AllocError) -> WordFault {
        WordFault::Memory
    }
}

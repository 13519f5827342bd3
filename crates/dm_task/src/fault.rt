ghost use Rattle.std.specs.Prelude.{◌≡◌};
ghost use Rattle.dm_task.specs.declared.fault.TaskFault.TheVariants.{Memory};

use dm_list::Bytes;
use std::alloc::{AllocError, AllocFailed};

/// What is wrong at a place of a task file.
#[derive(Clone, Copy, Debug, PartialEq, Eq)]
pub enum TaskCause {
    /// The text is no TOML, or no UTF-8, or begins with a byte order mark. The path is `-`.
    NotToml,
    /// No table of this kind has the key.
    Unknown,
    /// A key that is needed isn't there.
    Absent,
    /// The value is of another TOML type.
    Kind,
    /// A number, a length, a text or a name that isn't taken here.
    Range,
    /// A source's name, or a table of a source, stands there a second time.
    Repeated,
    /// The task has no shards, or more than 64. The path is `source`.
    Shards,
    /// The shards go to more than 16 tables. The path is `source`.
    Targets,
}

/// Why a task isn't read.
#[derive(Debug, Drop)]
pub enum TaskFault {
    /// The first fault of the file. A path is written as `source[0].table[1].db`, with places from 0, and each key as it
    /// stands in the file without its quotes.
    At { path: Bytes, cause: TaskCause },
    /// Memory ran out.
    Memory,
}

impl From<AllocError> for TaskFault {
    ghost from_gives = { λ _ fault. fault ≡ Memory };

    fn from(_error: AllocError) -> TaskFault {
        TaskFault::Memory
    }
}

impl<T: Drop> From<AllocFailed<T>> for TaskFault {
    ghost from_gives = { λ _ fault. fault ≡ Memory };

    fn from(_error: AllocFailed<T>) -> TaskFault {
        TaskFault::Memory
    }
}

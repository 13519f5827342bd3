ghost use Rattle.std.specs.Prelude.{◌≡◌};

use dm_dump::DumpCause;
use dm_join::JoinCause;
use dm_list::Bytes;
use dm_schema::TableName;
use dm_task::TaskCause;
use dm_value::Name;
use std::alloc::{AllocError, AllocFailed};

/// How a command ended.
#[derive(Debug, Drop, PartialEq, Eq)]
pub enum Status {
    Done,
    /// The words aren't a reading.
    Usage,
    /// The file isn't a task: the path of what is wrong, and the cause.
    Task {
        path: Bytes,
        cause: TaskCause,
    },
    /// A file couldn't be read.
    ReadFault,
    /// The text couldn't be written.
    WriteFault,
    /// The journal couldn't be read.
    TargetFault,
    Memory,
    /// What begins at this byte of the journal is no record, or one that nothing can be made of.
    JournalBad {
        at: u32,
    },
    /// A limit was passed.
    Limit {
        which: Which,
    },
    /// Two rows have one key.
    Unlawful,
    /// There is no file of the name.
    Missing {
        name: Bytes,
    },
    /// A file isn't a dump: the byte that shows it, and the cause.
    Dump {
        file: Bytes,
        at: u32,
        cause: DumpCause,
    },
    /// The schemas of a table have no join: the first column that speaks against it, and the cause.
    First {
        table: TableName,
        column: Name,
        cause: JoinCause,
    },
}

/// What there may be only so much of: the bytes of all files that are read together, the rows, their values, the bytes of
/// the journal.
#[derive(Clone, Copy, Debug, PartialEq, Eq)]
pub enum Which {
    Files,
    Items,
    Values,
    Journal,
}

impl Status {
    ghost use Rattle.dm_report.specs.Faults.{code_of};

    /// The exit status of the program.
    pub fn code(&self) -> u8
        ensures { result ≡ code_of self.now }
    {
        match self {
            Status::Done => 0,
            Status::Usage => 1,
            Status::Task { .. } => 2,
            Status::ReadFault => 4,
            Status::WriteFault => 5,
            Status::TargetFault => 6,
            Status::Memory => 7,
            Status::JournalBad { .. } => 8,
            Status::Limit { .. } => 9,
            Status::Unlawful => 10,
            Status::Missing { .. } => 11,
            Status::Dump { .. } => 12,
            Status::First { .. } => 13,
        }
    }
}

impl From<AllocError> for Status {
    ghost use Rattle.dm_report.specs.declared.status.Status.TheVariants.{Memory};

    ghost from_gives = { λ _ e. e ≡ Memory };

    fn from(_: AllocError) -> Status {
        Status::Memory
    }
}

impl<T: Drop> From<AllocFailed<T>> for Status {
    ghost use Rattle.dm_report.specs.declared.status.Status.TheVariants.{Memory};

    ghost from_gives = { λ _ e. e ≡ Memory };

    fn from(_: AllocFailed<T>) -> Status {
        Status::Memory
    }
}

use std::alloc::AllocError;

/// Why a text is no dump.
#[derive(Clone, Copy, Debug, PartialEq, Eq)]
pub enum DumpCause {
    /// A token has no end, or is no hexadecimal literal.
    Lex,
    /// No statement of a dump.
    Statement,
    /// A second CREATE TABLE.
    SecondCreate,
    /// An INSERT into another table.
    Table,
    /// A list of names that hasn't every column once.
    Columns,
    /// A row that hasn't as many literals as columns.
    Count,
    /// A literal without a value that its column can have.
    Unfit,
    /// No CREATE TABLE.
    NoCreate,
    /// A CREATE TABLE that says no schema.
    Create,
}

/// A cause, and the first byte of what shows it.
#[derive(Clone, Copy, Debug, PartialEq, Eq)]
pub struct Fault {
    pub at: u32,
    pub cause: DumpCause,
}

/// Why a dump can't be read.
#[derive(Clone, Copy, Debug, PartialEq, Eq)]
pub enum DumpFault {
    At { at: u32, cause: DumpCause },
    Memory,
}

impl From<AllocError> for DumpFault {
    ghost use Rattle.std.specs.Prelude.{◌≡◌};
    ghost use Rattle.dm_dump.specs.declared.fault.DumpFault.TheVariants.{Memory};

    ghost from_gives = { λ _ fault. fault ≡ Memory };

    fn from(_error: AllocError) -> DumpFault {
        DumpFault::Memory
    }
}

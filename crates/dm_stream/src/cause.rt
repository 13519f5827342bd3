use dm_binlog::SourceCause;
use dm_syntax::DdlFault;

/// Why a history ends before its files do.
///
/// The causes up to [`BadCause::RowStatement`] are those of a source: they end the history of each of its shards, and so
/// does a statement whose head can't be read. The others end the history of one shard.
#[derive(Clone, Copy, Debug, PartialEq, Eq)]
pub enum BadCause {
    Magic,
    NoFormat,
    Format,
    Checksum,
    Size,
    Start,
    Body,
    NoMap,
    Payload,
    PartialUpdate,
    RowStatement,
    /// A column isn't in an image of a row.
    Partial,
    /// An event, its table map and the schema differ in their number of columns.
    Count,
    TypeDiffers,
    Short,
    BadDecimal,
    BadDate,
    Unfit,
    Lex,
    Syntax,
    Unsupported,
    Made,
    Renames,
    PrimaryChange,
    UnknownColumn,
    ColumnExists,
    KeyColumn,
    Readd,
    FamilyChange,
    NoFill,
    KeyExists,
}

impl From<SourceCause> for BadCause {
    ghost use Rattle.std.specs.Prelude.{◌≡◌};
    ghost use Rattle.dm_stream.specs.Causes.{source_cause};

    ghost from_gives = { λ cause bad. bad ≡ source_cause cause };

    fn from(cause: SourceCause) -> BadCause {
        match cause {
            SourceCause::Magic => BadCause::Magic,
            SourceCause::NoFormat => BadCause::NoFormat,
            SourceCause::Format => BadCause::Format,
            SourceCause::Checksum => BadCause::Checksum,
            SourceCause::Size => BadCause::Size,
            SourceCause::Start => BadCause::Start,
            SourceCause::Body => BadCause::Body,
            SourceCause::NoMap => BadCause::NoMap,
            SourceCause::Payload => BadCause::Payload,
            SourceCause::PartialUpdate => BadCause::PartialUpdate,
            SourceCause::RowStatement => BadCause::RowStatement,
        }
    }
}

impl From<DdlFault> for BadCause {
    ghost use Rattle.std.specs.Prelude.{◌≡◌};
    ghost use Rattle.dm_stream.specs.Causes.{ddl_cause};

    ghost from_gives = { λ fault bad. bad ≡ ddl_cause fault };

    /// Why a statement can't be read. Want of memory isn't among it: ask for that before.
    fn from(fault: DdlFault) -> BadCause {
        match fault {
            DdlFault::Lex { .. } | DdlFault::Memory => BadCause::Lex,
            DdlFault::Syntax { .. } => BadCause::Syntax,
            DdlFault::Unsupported { .. } => BadCause::Unsupported,
            DdlFault::Made(_) => BadCause::Made,
        }
    }
}

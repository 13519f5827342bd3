ghost use Rattle.std.specs.Prelude.{◌≡◌};

use dm_lex::LexFault;
use dm_schema::SchemaFault;
use std::alloc::AllocError;

/// Why a statement can't be read. `at` is a place in bytes.
#[derive(Clone, Copy, Debug, PartialEq, Eq)]
pub enum DdlFault {
    /// A string, a quoted name, a comment or a hexadecimal literal that begins at `at` has no end, or a hexadecimal
    /// literal isn't one.
    Lex { at: u32 },
    /// No statement has the token at `at` there, or ends there.
    Syntax { at: u32 },
    /// The token at `at` shows something that isn't supported.
    Unsupported { at: u32 },
    /// The schema can't be made, or a column's default isn't one of its values.
    Made(SchemaFault),
    Memory,
}

impl From<AllocError> for DdlFault {
    ghost use Rattle.dm_syntax.specs.declared.fault.DdlFault.TheVariants.{Memory};

    ghost from_gives = { λ _ fault. fault ≡ Memory };

    fn from(_error: AllocError) -> DdlFault {
        DdlFault::Memory
    }
}

impl From<LexFault> for DdlFault {
    ghost use Rattle.dm_syntax.specs.Parsing.{lexical};

    ghost from_gives = { λ fault e. e ≡ lexical fault };

    fn from(fault: LexFault) -> DdlFault {
        match fault {
            LexFault::Open { at } | LexFault::Hex { at } => DdlFault::Lex { at },
            LexFault::Memory => DdlFault::Memory,
        }
    }
}

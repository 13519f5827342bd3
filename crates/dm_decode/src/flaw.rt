ghost use Rattle.std.specs.Prelude.{◌≡◌};

use std::alloc::AllocError;

/// Why bytes aren't a value of a kind.
#[derive(Clone, Copy, Debug, PartialEq, Eq)]
pub enum Flaw {
    /// A group of a decimal has more digits than it may have.
    GreatGroup,
    /// A day or a moment is out of range.
    NoDate,
    /// The value isn't one of the kind.
    NotOfKind,
    Memory,
}

impl From<AllocError> for Flaw {
    ghost use Rattle.dm_decode.specs.declared.flaw.Flaw.TheVariants.{Memory};

    ghost from_gives = { λ _ flaw. flaw ≡ Memory };

    fn from(_error: AllocError) -> Flaw {
        Flaw::Memory
    }
}

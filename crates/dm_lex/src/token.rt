ghost use Rattle.std.specs.Prelude.{◌≡◌};
ghost use Rattle.dm_lex.specs.declared.token.LexFault.TheVariants.{Memory};

use std::alloc::AllocFailed;

/// What a token is.
#[derive(Clone, Copy, Debug, PartialEq, Eq)]
pub enum TokenKind {
    /// A word that isn't quoted: a key word or a name.
    Word,
    /// A name in backquotes.
    Quoted,
    /// A string in single or double quotes.
    Text,
    /// A hexadecimal literal, as `0x4d` or `x'4d'`.
    Hex,
    /// A number without a sign.
    Number,
    /// Any other byte.
    Mark,
}

/// A token of a text: the bytes from `from` up to `to`, its quotes among them.
#[derive(Clone, Copy, Debug, PartialEq, Eq)]
pub struct Token {
    pub kind: TokenKind,
    pub from: u32,
    pub to: u32,
}

/// Why a text can't be split into tokens.
#[derive(Clone, Copy, Debug, PartialEq, Eq)]
pub enum LexFault {
    /// A string, a hexadecimal literal with quotes, a quoted name or a comment that begins at `at` has no end.
    Open { at: u32 },
    /// A hexadecimal literal with quotes that begins at `at` has an odd number of digits, or another character.
    Hex { at: u32 },
    Memory,
}

impl<T: Drop> From<AllocFailed<T>> for LexFault {
    ghost from_gives = { λ _ e. e ≡ Memory };

    fn from(_: AllocFailed<T>) -> LexFault {
        LexFault::Memory
    }
}

ghost use Rattle.std.specs.Prelude.{◌≡◌, IfOk};
ghost use Rattle.dm_route.specs.Patterns.{sign_of, signs_of};

use std::alloc::{AllocError, Global};

/// A sign of a pattern.
#[derive(Clone, Copy, Debug, PartialEq, Eq)]
pub enum Sign {
    /// Any run of characters, also none.
    Run,
    /// One character.
    Character,
    /// This byte.
    Byte(u8),
}

/// The signs of a pattern's text.
pub fn signs_of(alloc: Global, text: &[u8]) -> Result<Vec<Sign>, AllocError>
    ensures { IfOk result (λ signs. signs.items ≡ signs_of text.now) }
{
    text.iter().map(|byte| sign_of(*byte)).collect(alloc)
}

fn sign_of(byte: u8) -> Sign
    ensures { result ≡ sign_of byte }
{
    match byte {
        b'*' => Sign::Run,
        b'?' => Sign::Character,
        _ => Sign::Byte(byte),
    }
}

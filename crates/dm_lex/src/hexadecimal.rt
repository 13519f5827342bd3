ghost use Rattle.std.specs.Prelude.{◌≡◌, ◌≤◌, ◌%◌, ◌==◌, ◌∷◌, ◌++◌, length, IsTrue, IfOk, OnOk, if◌then◌else◌};
ghost use Rattle.std.specs.List.{list_all};
ghost use Rattle.dm_lex.specs.Lexemes.{is_hex_digit};
ghost use Rattle.dm_lex.specs.Literals.{hex_digit, hex_pairs, hex_digits};

use crate::byte::{has_at, is_digit};
use std::alloc::{AllocError, Global};

/// The digits behind `0x`, or between the quotes behind `x`.
pub fn hex_digits(bytes: &[u8]) -> &[u8]
    ensures { result.now ≡ hex_digits bytes.now }
{
    let from = bytes.len().min(2);
    let behind = &bytes[from..];
    if has_at(bytes, 0, b'0') {
        behind
    } else {
        &behind[..bytes.len().saturating_sub(3)]
    }
}

/// A byte for each pair of digits; an odd count has a zero before it.
pub fn bytes_of_hex(alloc: Global, digits: &[u8]) -> Result<Vec<u8>, AllocError>
    requires { IsTrue (list_all is_hex_digit digits.now) }
    ensures { IfOk result (λ bytes. bytes.items
        ≡ (if length digits.now % 2 == 0 then hex_pairs digits.now else hex_pairs (48 ∷ digits.now))) }
{
    let mut bytes = Vec::new(alloc);
    match digits {
        [first, behind @ ..] if digits.len() % 2 != 0 => {
            bytes.push(hex_digit(*first))?;
            push_pairs(&mut bytes, behind)?;
        }
        _ => push_pairs(&mut bytes, digits)?,
    }
    Ok(bytes)
}

fn push_pairs(bytes: &mut Vec<u8>, digits: &[u8]) -> Result<(), AllocError>
    requires { IsTrue (list_all is_hex_digit digits.now) }
    ensures { OnOk result (bytes.new.items ≡ bytes.old.items ++ hex_pairs digits.now) }
{
    let mut rest = digits;
    while let [high, low, behind @ ..] = rest {
        bytes.push(16 * hex_digit(*high) + hex_digit(*low))?;
        rest = behind;
    }
    Ok(())
}

fn hex_digit(byte: u8) -> u8
    requires { IsTrue (is_hex_digit byte) }
    ensures value { result ≡ hex_digit byte }
    ensures small { result ≤ 15 }
{
    if is_digit(byte) {
        byte - b'0'
    } else {
        byte.to_ascii_lowercase() - b'a' + 10
    }
}

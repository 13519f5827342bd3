ghost use Rattle.std.specs.Prelude.{◌≡◌, ◌≤◌, ◌-◌, ◌++◌, ◌==◌, length, take, IfOk, OnOk};
ghost use Rattle.std.specs.List.{suffix_len};
ghost use Rattle.dm_lex.specs.Literals.{unescaped, unquoted, string_of, without_blanks_at_end, padded};

use std::alloc::{AllocError, Global};

/// What a string stands for, without its quotes and backslashes.
pub fn string_of(alloc: Global, bytes: &[u8]) -> Result<Vec<u8>, AllocError>
    ensures { IfOk result (λ text. text.items ≡ string_of bytes.now) }
{
    match bytes {
        [] => Ok(Vec::new(alloc)),
        [quote, behind @ ..] => unquoted(alloc, *quote, behind),
    }
}

/// What stands behind an opening quote, up to the closing one: two quotes stand for one.
fn unquoted(alloc: Global, quote: u8, bytes: &[u8]) -> Result<Vec<u8>, AllocError>
    ensures { IfOk result (λ text. text.items ≡ unquoted quote bytes.now) }
{
    let mut text = Vec::new(alloc);
    let mut rest = bytes;
    while let [first, second, ..] = rest {
        if *first == b'\\' {
            push_unescaped(&mut text, *second)?;
            rest = &rest[2..];
        } else if *first == quote {
            text.push(*first)?;
            rest = &rest[2..];
        } else {
            text.push(*first)?;
            rest = &rest[1..];
        }
    }
    Ok(text)
}

/// What a byte behind a backslash stands for.
fn push_unescaped(text: &mut Vec<u8>, byte: u8) -> Result<(), AllocError>
    ensures { OnOk result (text.new.items ≡ text.old.items ++ unescaped byte) }
{
    match byte {
        b'0' => text.push(0)?,
        b'b' => text.push(8)?,
        b'n' => text.push(b'\n')?,
        b'r' => text.push(b'\r')?,
        b't' => text.push(b'\t')?,
        b'Z' => text.push(26)?,
        b'%' | b'_' => {
            text.push(b'\\')?;
            text.push(byte)?;
        }
        _ => text.push(byte)?,
    }
    Ok(())
}

/// How many bytes there are before those at the end that are this one.
pub fn length_before_last(bytes: &[u8], byte: u8) -> usize
    ensures value { result ≡ length bytes.now - suffix_len (λ b. b == byte) bytes.now }
    ensures within { result ≤ length bytes.now }
{
    bytes.len() - count_at_end(bytes, byte)
}

fn count_at_end(bytes: &[u8], byte: u8) -> usize
    ensures value { result ≡ suffix_len (λ b. b == byte) bytes.now }
    ensures within { result ≤ length bytes.now }
{
    bytes
        .iter()
        .rev()
        .take_while(|other| **other == byte)
        .count()
}

pub fn without_blanks_at_end(mut bytes: Vec<u8>) -> Vec<u8>
    ensures { result.items ≡ without_blanks_at_end bytes.items }
{
    let length = length_before_last(&bytes, b' ');
    bytes.truncate(length);
    bytes
}

/// Bytes with zeros behind them, up to a size.
pub fn padded(mut bytes: Vec<u8>, size: u16) -> Result<Vec<u8>, AllocError>
    ensures { IfOk result (λ filled. filled.items ≡ padded size bytes.items) }
{
    let missing = usize::from(size).saturating_sub(bytes.len());
    for _ in 0..missing {
        bytes.push(0)?;
    }
    Ok(bytes)
}

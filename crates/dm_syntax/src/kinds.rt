ghost use Rattle.std.specs.Prelude.{◌≡◌, ◌<◌, map, All, IfOk};
ghost use Rattle.dm_syntax.specs.Pieces.{bytes_of, terminal_of, terminal_of_mark, terminal_of_number};

use crate::terminal;
use crate::words::terminal_of_word;
use dm_grammar::Kind;
use dm_lex::{Token, TokenKind};
use std::alloc::{AllocError, Global};

/// The bytes of a token: none, where it isn't within the text.
pub fn bytes_of<'a>(text: &'a [u8], token: &Token) -> &'a [u8]
    ensures { result.now ≡ bytes_of text.now token.now }
{
    let from = text.len().min(token.from as usize);
    let (_, behind) = text.split_at(from);
    let length = behind
        .len()
        .min((token.to as usize).saturating_sub(token.from as usize));
    let (bytes, _) = behind.split_at(length);
    bytes
}

fn terminal_of_mark(bytes: &[u8]) -> Kind
    ensures { result ≡ terminal_of_mark bytes.now }
{
    match bytes {
        [b'('] => terminal::OPENING,
        [b')'] => terminal::CLOSING,
        [b','] => terminal::COMMA,
        [b'.'] => terminal::POINT,
        [b'='] => terminal::EQUALS,
        [b'-'] => terminal::MINUS,
        _ => terminal::OTHER_MARK,
    }
}

fn terminal_of_number(bytes: &[u8]) -> Kind
    ensures { result ≡ terminal_of_number bytes.now }
{
    if bytes.contains(&b'.') {
        terminal::FRACTIONAL
    } else {
        terminal::WHOLE
    }
}

/// What the grammar sees of a token.
pub fn terminal_of(alloc: Global, text: &[u8], token: &Token) -> Result<Kind, AllocError>
    ensures { IfOk result (λ kind. kind ≡ terminal_of text.now token.now) }
{
    let bytes = bytes_of(text, token);
    match token.kind {
        TokenKind::Word => terminal_of_word(alloc, bytes),
        TokenKind::Quoted => Ok(terminal::QUOTED),
        TokenKind::Text => Ok(terminal::STRING),
        TokenKind::Hex => Ok(terminal::HEXADECIMAL),
        TokenKind::Number => Ok(terminal_of_number(bytes)),
        TokenKind::Mark => Ok(terminal_of_mark(bytes)),
    }
}

/// What the grammar sees of tokens.
pub fn terminals_of(alloc: Global, text: &[u8], tokens: &[Token]) -> Result<Vec<Kind>, AllocError>
    ensures { IfOk result (λ kinds. kinds.items ≡ map (terminal_of text.now) tokens.now) }
{
    let mut kinds = Vec::with_capacity(alloc, tokens.len())?;
    for token in tokens {
        kinds.push(terminal_of(alloc, text, token)?)?;
    }
    Ok(kinds)
}

ghost use Rattle.std.specs.Prelude.{◌≡◌, map};
ghost use Rattle.std.specs.Char.{to_ascii_lowercase};
ghost use Rattle.dm_lex.specs.Literals.{is_word};
ghost use Rattle.dm_dump.specs.Terminals.{is_passed, is_truth, is_introducer, is_name, in_class, terminal_of_word, terminal_of_mark, terminal_of};

use crate::{class, terminal};
use dm_grammar::{Class, Classes, Kind};
use dm_lex::{Token, TokenKind};
use dm_syntax::bytes_of;

/// The classes of the grammar of dumps.
pub struct DumpClasses;

impl Classes for DumpClasses {
    ghost has = { in_class };

    fn contains(&self, class: Class, kind: Kind) -> bool {
        if class < 128 {
            kind == class
        } else if class == class::NAME {
            is_name(kind)
        } else {
            kind != terminal::SEMICOLON
        }
    }
}

fn is_name(kind: Kind) -> bool
    ensures { result ≡ is_name kind }
{
    terminal::QUOTED <= kind
}

fn is_word(bytes: &[u8], word: &[u8]) -> bool
    requires { map to_ascii_lowercase word.now ≡ word.now }
    ensures { result ≡ is_word word.now bytes.now }
{
    bytes.eq_ignore_ascii_case(word)
}

fn is_passed(bytes: &[u8]) -> bool
    ensures { result ≡ is_passed bytes.now }
{
    is_word(bytes, b"set")
        || is_word(bytes, b"drop")
        || is_word(bytes, b"lock")
        || is_word(bytes, b"unlock")
}

fn is_truth(bytes: &[u8]) -> bool
    ensures { result ≡ is_truth bytes.now }
{
    is_word(bytes, b"null") || is_word(bytes, b"true") || is_word(bytes, b"false")
}

fn is_introducer(bytes: &[u8]) -> bool
    ensures { result ≡ is_introducer bytes.now }
{
    is_word(bytes, b"_binary")
        || is_word(bytes, b"_utf8")
        || is_word(bytes, b"_utf8mb3")
        || is_word(bytes, b"_utf8mb4")
}

fn terminal_of_word(bytes: &[u8]) -> Kind
    ensures { result ≡ terminal_of_word bytes.now }
{
    if is_truth(bytes) {
        terminal::TRUTH
    } else if is_introducer(bytes) {
        terminal::INTRODUCER
    } else if is_word(bytes, b"insert") {
        terminal::INSERT
    } else if is_word(bytes, b"into") {
        terminal::INTO
    } else if is_word(bytes, b"values") {
        terminal::VALUES
    } else if is_word(bytes, b"create") {
        terminal::CREATE
    } else if is_word(bytes, b"table") {
        terminal::TABLE
    } else if is_passed(bytes) {
        terminal::PASSED
    } else {
        terminal::OTHER_WORD
    }
}

fn terminal_of_mark(bytes: &[u8]) -> Kind
    ensures { result ≡ terminal_of_mark bytes.now }
{
    match bytes {
        [b'(', ..] => terminal::OPENING,
        [b')', ..] => terminal::CLOSING,
        [b',', ..] => terminal::COMMA,
        [b';', ..] => terminal::SEMICOLON,
        [b'.', ..] => terminal::POINT,
        [b'-', ..] => terminal::MINUS,
        _ => terminal::OTHER_MARK,
    }
}

/// What the grammar sees of a token.
pub fn terminal_of(text: &[u8], token: &Token) -> Kind
    ensures { result ≡ terminal_of text.now token.now }
{
    let bytes = bytes_of(text, token);
    match token.kind {
        TokenKind::Word => terminal_of_word(bytes),
        TokenKind::Quoted => terminal::QUOTED,
        TokenKind::Text => terminal::STRING,
        TokenKind::Hex => terminal::HEXADECIMAL,
        TokenKind::Number => terminal::NUMBER,
        TokenKind::Mark => terminal_of_mark(bytes),
    }
}

ghost use Rattle.std.specs.Prelude.{◌≡◌, ◌≤◌, ◌+◌, ◌&&◌, ◌||◌, ◌==◌, ◌∷◌, [], length, drop, unwrap_or};
ghost use Rattle.std.specs.List.{prefix_len};
ghost use Rattle.dm_lex.specs.declared.lexeme.Lexeme.{Lexeme};
ghost use Rattle.dm_lex.specs.declared.lexeme.Lexeme.TheVariants.{Gap, Piece};
ghost use Rattle.dm_lex.specs.declared.token.TokenKind.TheVariants as token;
ghost use Rattle.dm_lex.specs.Lexemes.{is_blank, is_digit, is_hex_digit, begins_word, is_word_byte, at_front, starts, closed_length, string_length, name_length, comment_length, line_length, digits_length, number_length, enclosed, quoted_hex, begins_dashes, first_of, lexeme_of};

use crate::TokenKind;
use crate::byte::{has_at, has_blank_at, has_digit_at, has_hex_digit_at, has_word_at};
use crate::closing::{closed_length, comment_length, line_length, place_of_quote};
use crate::lengths::{digits_length, hex_digits_length, is_hex, number_length, word_length};

/// What stands at the front of a text, with the number of its bytes.
#[derive(Clone, Copy, Debug, PartialEq, Eq)]
pub enum Lexeme {
    /// A blank or a comment.
    Gap(usize),
    /// A token.
    Piece(TokenKind, usize),
    /// What has no end.
    Open,
    /// A hexadecimal literal whose quotes hold something else.
    NotHex,
}

/// What stands at the front of a text that isn't empty.
pub fn lexeme_of(text: &[u8]) -> Lexeme
    ensures { result ≡ lexeme_of text.now }
{
    if let Some(gap) = gap_of(text) {
        return gap;
    }
    if let Some(quoted) = quoted_of(text) {
        return quoted;
    }
    if let Some(hex) = hex_of(text) {
        return hex;
    }
    plain_of(text)
}

/// A blank or a comment at the front of a text.
fn gap_of(text: &[u8]) -> Option<Lexeme>
    ensures { (other : Lexeme) → unwrap_or result other ≡ first_of
        ((at_front is_blank text.now, Gap 1)
        ∷ (starts 35 text.now, Gap (line_length text.now))
        ∷ (begins_dashes text.now, Gap (line_length text.now))
        ∷ (starts 47 text.now && starts 42 (drop 1 text.now), enclosed Gap 2 (comment_length (drop 2 text.now)))
        ∷ [])
        other }
{
    if has_blank_at(text, 0) {
        Some(Lexeme::Gap(1))
    } else if has_at(text, 0, b'#') || begins_dashes(text) {
        Some(Lexeme::Gap(line_length(text)))
    } else if has_at(text, 0, b'/') && has_at(text, 1, b'*') {
        Some(comment_of(text))
    } else {
        None
    }
}

/// Whether a text begins with two dashes that have a blank, a line's end or nothing behind them.
fn begins_dashes(text: &[u8]) -> bool
    ensures { result ≡ begins_dashes text.now }
{
    has_at(text, 0, b'-')
        && has_at(text, 1, b'-')
        && (text.len() == 2
            || has_at(text, 2, b' ')
            || has_at(text, 2, b'\n')
            || has_at(text, 2, b'\r'))
}

/// A comment between slashes and stars, whose opening stands at the front.
fn comment_of(text: &[u8]) -> Lexeme
    requires { 2 ≤ length text.now }
    ensures { result ≡ enclosed Gap 2 (comment_length (drop 2 text.now)) }
{
    match comment_length(&text[2..]) {
        Some(length) => Lexeme::Gap(2 + length),
        None => Lexeme::Open,
    }
}

/// A quoted name or a string at the front of a text.
fn quoted_of(text: &[u8]) -> Option<Lexeme>
    ensures { (other : Lexeme) → unwrap_or result other ≡ first_of
        ((starts 96 text.now, enclosed (Piece token.Quoted) 1 (name_length (drop 1 text.now)))
        ∷ (starts 39 text.now, enclosed (Piece token.Text) 1 (string_length 39 (drop 1 text.now)))
        ∷ (starts 34 text.now, enclosed (Piece token.Text) 1 (string_length 34 (drop 1 text.now)))
        ∷ [])
        other }
{
    if has_at(text, 0, b'`') {
        Some(enclosed(TokenKind::Quoted, text, b'`', false))
    } else if has_at(text, 0, b'\'') {
        Some(enclosed(TokenKind::Text, text, b'\'', true))
    } else if has_at(text, 0, b'"') {
        Some(enclosed(TokenKind::Text, text, b'"', true))
    } else {
        None
    }
}

/// What stands between quotes, the first of which stands at the front.
fn enclosed(kind: TokenKind, text: &[u8], quote: u8, escapes: bool) -> Lexeme
    requires { 1 ≤ length text.now }
    ensures { result ≡ enclosed (Piece kind) 1 (closed_length (λ b. escapes && b == 92) quote (drop 1 text.now)) }
{
    match closed_length(&text[1..], quote, escapes) {
        Some(length) => Lexeme::Piece(kind, 1 + length),
        None => Lexeme::Open,
    }
}

/// A hexadecimal literal at the front of a text.
fn hex_of(text: &[u8]) -> Option<Lexeme>
    ensures { (other : Lexeme) → unwrap_or result other ≡ first_of
        (((starts 120 text.now || starts 88 text.now) && starts 39 (drop 1 text.now), quoted_hex (drop 2 text.now))
        ∷ (starts 48 text.now && starts 120 (drop 1 text.now) && at_front is_hex_digit (drop 2 text.now), Piece token.Hex (2 + prefix_len is_hex_digit (drop 2 text.now)))
        ∷ [])
        other }
{
    if (has_at(text, 0, b'x') || has_at(text, 0, b'X')) && has_at(text, 1, b'\'') {
        Some(quoted_hex(&text[2..]))
    } else if has_at(text, 0, b'0') && has_at(text, 1, b'x') && has_hex_digit_at(text, 2) {
        Some(Lexeme::Piece(TokenKind::Hex, 2 + hex_digits_length(&text[2..])))
    } else {
        None
    }
}

/// A hexadecimal literal whose opening stands before the text.
fn quoted_hex(behind: &[u8]) -> Lexeme
    ensures { result ≡ quoted_hex behind.now }
{
    let Some(end) = place_of_quote(behind) else {
        return Lexeme::Open;
    };
    if is_hex(&behind[..end]) {
        Lexeme::Piece(TokenKind::Hex, 2 + end + 1)
    } else {
        Lexeme::NotHex
    }
}

/// A word, a number or a mark at the front of a text.
fn plain_of(text: &[u8]) -> Lexeme
    ensures { result ≡ first_of
        ((at_front begins_word text.now, Piece token.Word (prefix_len is_word_byte text.now))
        ∷ (at_front is_digit text.now, Piece token.Number (number_length text.now))
        ∷ (starts 46 text.now && at_front is_digit (drop 1 text.now), Piece token.Number (1 + digits_length (drop 1 text.now)))
        ∷ [])
        (Piece token.Mark 1) }
{
    if has_word_at(text, 0) {
        Lexeme::Piece(TokenKind::Word, word_length(text))
    } else if has_digit_at(text, 0) {
        Lexeme::Piece(TokenKind::Number, number_length(text))
    } else if has_at(text, 0, b'.') && has_digit_at(text, 1) {
        Lexeme::Piece(TokenKind::Number, 1 + digits_length(&text[1..]))
    } else {
        Lexeme::Piece(TokenKind::Mark, 1)
    }
}

ghost use Rattle.std.specs.Prelude.{◌≡◌, ◌<◌, ◌≤◌, ◌^◌, length, drop};
ghost use Rattle.dm_lex.specs.Lexemes.{lexeme_of};
ghost use Rattle.dm_lex.specs.Tokens.{Gives, Moves};
ghost use Rattle.dm_lex.specs.Places.{EndsWithin, Finds};

use crate::lexeme::{Lexeme, lexeme_of};
use crate::{LexFault, Token};
use std::marker::Model;

/// A text that is split into tokens one after another, and the place from which on it is still to be split.
#[derive(Drop)]
pub struct Lexer<'a> {
    text: &'a [u8],
    at: u32,
}

impl<'a> Model for Lexer<'a> {
    ghost use Rattle.std.specs.Prelude.{◌<◌, ◌≤◌, ◌^◌, length};
    ghost use Rattle.dm_lex.specs.Tokens.{LexerState};

    ghost Value = { LexerState };

    ghost view = { λ lexer. record { text = lexer.text.now; at = lexer.at } };

    ghost invariant = { λ lexer. (lexer.at ≤ length lexer.text.now) × (length lexer.text.now < 2 ^ 32) };
}

impl<'a> Lexer<'a> {
    /// Begins at a place of the text, which is where a token, a blank or a comment begins, or the end.
    pub fn new(text: &'a [u8], at: u32) -> Lexer<'a>
        requires small { length text.now < 2 ^ 32 }
        requires within { at ≤ length text.now }
        ensures { result ≡ record { text = text.now; at = at } }
    {
        Lexer { text, at }
    }

    /// The next token; None at the end. A fault is one of [`LexFault::Open`] and [`LexFault::Hex`]; behind it nothing
    /// more is read, and each further call answers it again.
    pub fn next_token(&mut self) -> Result<Option<Token>, LexFault>
        ensures gives { Gives result self.old self.new }
        ensures moves { Moves result self.old self.new }
    {
        let next = token_from(self.text, self.at);
        if let Ok(Some(token)) = &next {
            self.at = token.to;
        }
        next
    }
}

/// The first token from a place on.
fn token_from(text: &[u8], at: u32) -> Result<Option<Token>, LexFault>
    requires small { length text.now < 2 ^ 32 }
    requires within { at ≤ length text.now }
    ensures { Finds result text.now at }
{
    let mut from = at;
    while (from as usize) < text.len() {
        match lexeme_at(text, from) {
            Lexeme::Gap(length) => from += length as u32,
            Lexeme::Piece(kind, length) => {
                let to = from + length as u32;
                return Ok(Some(Token { kind, from, to }));
            }
            Lexeme::Open => return Err(LexFault::Open { at: from }),
            Lexeme::NotHex => return Err(LexFault::Hex { at: from }),
        }
    }
    Ok(None)
}

/// What stands at a place of a text.
fn lexeme_at(text: &[u8], at: u32) -> Lexeme
    requires { at < length text.now }
    ensures value { result ≡ lexeme_of (drop at text.now) }
    ensures within { EndsWithin result at (length text.now) }
{
    lexeme_of(&text[at as usize..])
}

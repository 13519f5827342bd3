ghost use Rattle.std.specs.Prelude.{◌≡◌, ◌<◌, ◌^◌, ◌++◌, length, IfOk, IsTrue, if◌then◌else◌};
ghost use Rattle.std.specs.Bool.{OnTrue};
ghost use Rattle.std.specs.List.{list_all};
ghost use Rattle.std.specs.Option.{option_map};
ghost use Rattle.dm_lex.specs.Literals.{literal_of};
ghost use Rattle.dm_schema.specs.Kinds.{is_kind, is_column};
ghost use Rattle.dm_dump.specs.Literals.{is_literal, begun_with, stepped, has_bracket, literals_at, if_fits, value_in, values_of, first_unfit};

use crate::kinds::terminal_of;
use crate::terminal;
use dm_grammar::Kind;
use dm_lex::{Lexer, Token, literal};
use dm_schema::{Column, fits};
use dm_syntax::bytes_of;
use dm_value::Value;
use std::alloc::{AllocError, Global};

/// A literal of a row: its first token, which may be a minus or an introducer, and the token of its value.
#[derive(Clone, Copy, Debug, PartialEq, Eq)]
pub struct Literal {
    pub first: Token,
    pub minus: bool,
    pub value: Token,
}

/// What may stand at a place of a row.
#[derive(Clone, Copy, Debug, PartialEq, Eq)]
pub enum Waiting {
    Literal,
    /// The number behind a minus.
    Number(Token),
    /// The string behind an introducer.
    Text(Token),
    Comma,
}

/// What a token is in a row.
#[derive(Clone, Copy, Debug, PartialEq, Eq)]
pub enum Step {
    /// The row's literals go on no further.
    Stop,
    /// What may stand behind it.
    On(Waiting),
    /// The last token of a literal.
    Found(Literal),
}

/// Whether a token is a literal by itself.
fn is_literal(kind: Kind) -> bool
    ensures { result ≡ is_literal kind }
{
    if kind == terminal::NUMBER {
        true
    } else if kind == terminal::STRING {
        true
    } else if kind == terminal::HEXADECIMAL {
        true
    } else {
        kind == terminal::TRUTH
    }
}

fn begun_with(token: Token, kind: Kind) -> Step
    ensures { result ≡ begun_with token kind }
{
    if is_literal(kind) {
        Step::Found(Literal {
            first: token,
            minus: false,
            value: token,
        })
    } else if kind == terminal::MINUS {
        Step::On(Waiting::Number(token))
    } else if kind == terminal::INTRODUCER {
        Step::On(Waiting::Text(token))
    } else {
        Step::Stop
    }
}

/// A literal that ends with this token, where its kind is the one that may stand there.
fn ended_with(first: Token, minus: bool, value: Token, stands: bool) -> Step
    ensures { result ≡ (if stands then Step.Found (record { first = first; minus = minus; value = value }) else Step.Stop) }
{
    if stands {
        Step::Found(Literal {
            first,
            minus,
            value,
        })
    } else {
        Step::Stop
    }
}

fn stepped(waiting: Waiting, token: Token, kind: Kind) -> Step
    ensures { result ≡ stepped waiting token kind }
{
    match waiting {
        Waiting::Literal => begun_with(token, kind),
        Waiting::Number(first) => ended_with(first, true, token, kind == terminal::NUMBER),
        Waiting::Text(first) => ended_with(first, false, token, kind == terminal::STRING),
        Waiting::Comma => {
            if kind == terminal::COMMA {
                Step::On(Waiting::Literal)
            } else {
                Step::Stop
            }
        }
    }
}

/// Whether a row's bracket stands at the place.
pub fn has_bracket(text: &[u8], at: u32) -> bool
    ensures value { result ≡ has_bracket text.now at }
    ensures small { OnTrue result (length text.now < 2 ^ 32) }
{
    text.len() < 0x1_0000_0000
        && match text.get(at as usize) {
            Some(byte) => *byte == b'(',
            None => false,
        }
}

/// The literals of the row whose bracket stands at the place, up to the first token that goes on no further.
pub fn literals_at(alloc: Global, text: &[u8], at: u32) -> Result<Vec<Literal>, AllocError>
    ensures { IfOk result (λ literals. literals.items ≡ literals_at text.now at) }
{
    let mut literals = Vec::new(alloc);
    if !has_bracket(text, at) {
        return Ok(literals);
    }
    let mut lexer = Lexer::new(text, at + 1);
    let mut waiting = Waiting::Literal;
    while let Ok(Some(token)) = lexer.next_token() {
        match stepped(waiting, token, terminal_of(text, &token)) {
            Step::Stop => return Ok(literals),
            Step::On(next) => waiting = next,
            Step::Found(literal) => {
                literals.push(literal)?;
                waiting = Waiting::Comma;
            }
        }
    }
    Ok(literals)
}

/// The value that a token has for a kind, with a minus before it or without.
fn literal_of(
    alloc: Global,
    bytes: &[u8],
    token: &Token,
    minus: bool,
    column: &Column,
) -> Result<Option<Value>, AllocError>
    requires few { length bytes.now < 2 ^ 32 }
    requires kind { IsTrue (is_kind column.now.kind) }
    ensures { IfOk result (λ value. value ≡ literal_of column.now.kind minus token.now.kind bytes.now) }
{
    let whole = Token {
        kind: token.kind,
        from: 0,
        to: bytes.len() as u32,
    };
    literal(alloc, bytes, &whole, minus, &column.kind)
}

/// The value, if the column can have it.
fn if_fits(column: &Column, value: Option<Value>) -> Option<Value>
    requires { IsTrue (is_kind column.now.kind) }
    ensures { result ≡ if_fits column.now value }
{
    let value = value?;
    if fits(&value, column) {
        Some(value)
    } else {
        None
    }
}

/// The value of a literal that its column can have.
fn value_in(
    alloc: Global,
    text: &[u8],
    column: &Column,
    literal: &Literal,
) -> Result<Option<Value>, AllocError>
    requires few { length text.now < 2 ^ 32 }
    requires column { IsTrue (is_column column.now) }
    ensures { IfOk result (λ value. value ≡ value_in text.now column.now literal.now) }
{
    let bytes = bytes_of(text, &literal.value);
    let value = literal_of(alloc, bytes, &literal.value, literal.minus, column)?;
    Ok(if_fits(column, value))
}

/// Puts the values of literals behind others; false where there isn't one for each column.
pub fn push_values(
    alloc: Global,
    text: &[u8],
    columns: &[Column],
    literals: &[Literal],
    values: &mut Vec<Value>,
) -> Result<bool, AllocError>
    requires few { length text.now < 2 ^ 32 }
    requires columns { IsTrue (list_all is_column columns.now) }
    ensures { IfOk result (λ all. (if all then Some values.new.items else None)
        ≡ option_map (λ vs. values.old.items ++ vs) (values_of text.now columns.now literals.now)) }
{
    let [column, columns @ ..] = columns else {
        return Ok(literals.is_empty());
    };
    let [literal, literals @ ..] = literals else {
        return Ok(false);
    };
    let Some(value) = value_in(alloc, text, column, literal)? else {
        return Ok(false);
    };
    values.push(value)?;
    push_values(alloc, text, columns, literals, values)
}

/// Where the first literal begins that has a column, and no value of it.
pub fn first_unfit(
    alloc: Global,
    text: &[u8],
    columns: &[Column],
    literals: &[Literal],
) -> Result<Option<u32>, AllocError>
    requires few { length text.now < 2 ^ 32 }
    requires columns { IsTrue (list_all is_column columns.now) }
    ensures { IfOk result (λ place. place ≡ first_unfit text.now columns.now literals.now) }
{
    let [column, columns @ ..] = columns else {
        return Ok(None);
    };
    let [literal, literals @ ..] = literals else {
        return Ok(None);
    };
    if value_in(alloc, text, column, literal)?.is_some() {
        first_unfit(alloc, text, columns, literals)
    } else {
        Ok(Some(literal.first.from))
    }
}

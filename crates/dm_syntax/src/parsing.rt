ghost use Rattle.std.specs.Prelude.{◌≡◌, ◌<◌, ◌^◌, All, List, ℕ, None, Ok, length, IfOk, Option};
ghost use Rattle.dm_grammar.specs.Sentence.{IsSentence, IsReading};
ghost use Rattle.dm_lex.specs.declared.token.Token.{Token};
ghost use Rattle.dm_lex.specs.Tokens.{tokens_of};
ghost use Rattle.dm_syntax.specs.Classes.{in_class};
ghost use Rattle.dm_syntax.specs.Pieces.{pieces_of};
ghost use Rattle.std.specs.Option.{option_map};
ghost use Rattle.dm_syntax.specs.Productions.{begins_table, statement_grammar, head_grammar};
ghost use Rattle.dm_syntax.specs.Parsing.{grammar_of, kinds_of, place_of, placed, IsStatement, OrMemory, Says, judged_as, parsing_of};

use crate::fault::DdlFault;
use crate::kinds::terminals_of;
use crate::piece::{Piece, pieces_of};
use crate::reading::{
    read_alter_table, read_alter_table_start, read_create_table, read_create_table_start,
    read_other, read_other_start,
};
use crate::terminal;
use dm_grammar::{Fault, KIND_LIMIT, Kind, Reading};
use dm_lex::{Token, tokens};
use std::alloc::{AllocError, Global};

/// How much of a statement is read.
#[derive(Clone, Copy, Debug, PartialEq, Eq)]
pub enum Extent {
    Whole,
    /// The head alone: what is behind the names of its tables is split into tokens and not read further.
    Head,
}

/// The pieces of a statement up to its first fault by the grammar.
#[derive(Debug, Drop)]
pub struct Parsed {
    pub pieces: Vec<Piece>,
    pub fault: Option<DdlFault>,
}

/// The pieces of a text. The fault of a text that can't be split into tokens is an `Err`.
pub fn parse(alloc: Global, text: &[u8], extent: Extent) -> Result<Parsed, DdlFault>
    requires { length text.now < 2 ^ 32 }
    ensures exact { OrMemory (Says extent judged_as text.now) (parsing_of result) }
    ensures each { (tokens : List Token) (roles : List ℕ) → tokens_of text.now ≡ Ok tokens → IsStatement extent text.now tokens roles
        → IfOk result (λ parsed. (parsed.fault ≡ None) × (parsed.pieces.items ≡ pieces_of tokens (kinds_of text.now tokens) roles)) }
{
    let lexed = tokens(alloc, text)?;
    let tokens = lexed.as_slice();
    let kinds = terminals_of(alloc, text, tokens)?;
    let reading = read(alloc, &kinds, extent)?;
    let pieces = pieces_of(alloc, tokens, &kinds, &reading.roles)?;
    let fault = placed_if(text, tokens, reading.fault);
    Ok(Parsed { pieces, fault })
}

/// Reads by the grammar that the first two words tell.
fn read(alloc: Global, kinds: &[Kind], extent: Extent) -> Result<Reading, AllocError>
    requires { All (λ kind. kind < KIND_LIMIT) kinds.now }
    ensures exact { IfOk result (λ reading.
        IsReading in_class (grammar_of extent kinds.now) kinds.now reading.roles.items reading.fault) }
    ensures each { (roles : List ℕ) → IsSentence in_class (grammar_of extent kinds.now) kinds.now roles
        → IfOk result (λ reading. (reading.roles.items ≡ roles) × (reading.fault ≡ None)) }
{
    match extent {
        Extent::Whole => read_statement(alloc, kinds),
        Extent::Head => read_start(alloc, kinds),
    }
}

fn read_statement(alloc: Global, kinds: &[Kind]) -> Result<Reading, AllocError>
    requires { All (λ kind. kind < KIND_LIMIT) kinds.now }
    ensures exact { IfOk result (λ reading.
        IsReading in_class (statement_grammar kinds.now) kinds.now reading.roles.items reading.fault) }
    ensures each { (roles : List ℕ) → IsSentence in_class (statement_grammar kinds.now) kinds.now roles
        → IfOk result (λ reading. (reading.roles.items ≡ roles) × (reading.fault ≡ None)) }
{
    if begins_table(kinds, terminal::CREATE) {
        read_create_table(alloc, kinds)
    } else if begins_table(kinds, terminal::ALTER) {
        read_alter_table(alloc, kinds)
    } else {
        read_other(alloc, kinds)
    }
}

fn read_start(alloc: Global, kinds: &[Kind]) -> Result<Reading, AllocError>
    requires { All (λ kind. kind < KIND_LIMIT) kinds.now }
    ensures exact { IfOk result (λ reading.
        IsReading in_class (head_grammar kinds.now) kinds.now reading.roles.items reading.fault) }
    ensures each { (roles : List ℕ) → IsSentence in_class (head_grammar kinds.now) kinds.now roles
        → IfOk result (λ reading. (reading.roles.items ≡ roles) × (reading.fault ≡ None)) }
{
    if begins_table(kinds, terminal::CREATE) {
        read_create_table_start(alloc, kinds)
    } else if begins_table(kinds, terminal::ALTER) {
        read_alter_table_start(alloc, kinds)
    } else {
        read_other_start(alloc, kinds)
    }
}

/// Whether a statement begins with a word, and TABLE behind it.
fn begins_table(kinds: &[Kind], word: Kind) -> bool
    ensures { result ≡ begins_table word kinds.now }
{
    match kinds {
        [first, second, ..] => *first == word && *second == terminal::TABLE,
        _ => false,
    }
}

fn placed_if(text: &[u8], tokens: &[Token], fault: Option<Fault>) -> Option<DdlFault>
    requires { length text.now < 2 ^ 32 }
    ensures { result ≡ option_map (placed text.now tokens.now) fault }
{
    Some(placed(text, tokens, fault?))
}

/// Where the token of a number begins; behind the last, the text's end.
fn place_of(text: &[u8], tokens: &[Token], number: usize) -> u32
    requires { length text.now < 2 ^ 32 }
    ensures { result ≡ place_of text.now tokens.now number }
{
    match tokens.get(number) {
        Some(token) => token.from,
        None => text.len() as u32,
    }
}

/// The grammar's fault, by its place in the text.
fn placed(text: &[u8], tokens: &[Token], fault: Fault) -> DdlFault
    requires { length text.now < 2 ^ 32 }
    ensures { result ≡ placed text.now tokens.now fault }
{
    match fault {
        Fault::Syntax { at } => DdlFault::Syntax {
            at: place_of(text, tokens, at),
        },
        Fault::Unsupported { at } => DdlFault::Unsupported {
            at: place_of(text, tokens, at),
        },
    }
}

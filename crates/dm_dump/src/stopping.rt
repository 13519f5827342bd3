ghost use Rattle.std.specs.Prelude.{◌≡◌, ◌==◌, unwrap_or, if◌then◌else◌};
ghost use Rattle.dm_lex.specs.Tokens.{lexed};
ghost use Rattle.dm_dump.specs.declared.terminal.TheConstants as terminal;
ghost use Rattle.dm_dump.specs.Reading.{fault_at, lexical, fault_in_statement};

use crate::fault::{DumpCause, Fault};
use crate::kinds::terminal_of;
use crate::terminal;
use dm_grammar::Kind;
use dm_lex::{LexFault, Lexer};

pub fn statement_fault(at: u32) -> Fault
    ensures { result ≡ fault_at at }
{
    Fault {
        at,
        cause: DumpCause::Statement,
    }
}

pub fn lexical(fault: LexFault) -> Fault
    ensures { result ≡ lexical fault }
{
    let at = match fault {
        LexFault::Open { at } | LexFault::Hex { at } => at,
        LexFault::Memory => 0,
    };
    Fault {
        at,
        cause: DumpCause::Lex,
    }
}

/// Where the statement begins that goes on behind a token.
pub fn begun_behind(begun: Option<u32>, kind: Kind, from: u32) -> Option<u32>
    ensures { result ≡ (if kind == terminal.SEMICOLON then None else Some (unwrap_or begun from)) }
{
    if kind == terminal::SEMICOLON {
        None
    } else {
        Some(begun.unwrap_or(from))
    }
}

/// The lexical fault of what is left, unless a `;` stands before it.
pub fn fault_in_statement(text: &[u8], lexer: &mut Lexer<'_>) -> Option<LexFault>
    ensures value { result ≡ fault_in_statement text.now (lexed lexer.old).tokens (lexed lexer.old).fault }
    ensures text { lexer.new.text ≡ lexer.old.text }
{
    loop {
        match lexer.next_token() {
            Ok(Some(token)) => {
                if terminal_of(text, &token) == terminal::SEMICOLON {
                    return None;
                }
            }
            Ok(None) => return None,
            Err(fault) => return Some(fault),
        }
    }
}

ghost use Rattle.std.specs.Prelude.{◌≡◌, ◌<◌, ◌^◌, length, IfOk};

use crate::fault::Fault;
use crate::grammar::DUMP_GRAMMAR;
use crate::kinds::{DumpClasses, terminal_of};
use crate::stopping::{begun_behind, fault_in_statement, lexical, statement_fault};
use crate::{role, terminal};
use dm_grammar::{Kind, Reader, UNSUPPORTED};
use dm_lex::{LexFault, Lexer, Token};
use dm_syntax::Piece;
use std::alloc::{AllocError, Global};

/// What is next in a dump.
#[derive(Clone, Copy, Debug, PartialEq, Eq)]
pub enum Ahead {
    Piece(Piece),
    /// Nothing more, and why reading ends here, if it is for a fault.
    End(Option<Fault>),
}

/// A dump that is read token by token. It keeps none of them.
#[derive(Drop)]
pub struct Source<'a> {
    pub text: &'a [u8],
    pub lexer: Lexer<'a>,
    pub reader: Reader<'a>,
    /// Where the statement begins in which the reader stands, if it stands in one.
    pub begun: Option<u32>,
    ghost small: { length text.now < 2 ^ 32 },
    ghost same: { lexer.text ≡ text.now },
}

impl<'a> Source<'a> {
    ghost use Rattle.dm_grammar.specs.Determinism.{is_nullable};
    ghost use Rattle.dm_grammar.specs.Rests.{left};
    ghost use Rattle.dm_lex.specs.Tokens.{lexed};
    ghost use Rattle.dm_dump.specs.Terminals.{terminal_of};
    ghost use Rattle.dm_dump.specs.Streams.{contents_left, all_contents, stopped_at, ended_with, ReadsToken, Reads, ahead_of};

    pub fn new(alloc: Global, text: &'a [u8]) -> Result<Source<'a>, AllocError>
        requires { length text.now < 2 ^ 32 }
        ensures contents { IfOk result (λ source. contents_left source ≡ all_contents text.now) }
        ensures text { IfOk result (λ source. source.text.now ≡ text.now) }
    {
        Ok(Source {
            text,
            lexer: Lexer::new(text, 0),
            reader: Reader::new(alloc, &DUMP_GRAMMAR)?,
            begun: None,
        })
    }

    /// Behind the last token: how reading ends.
    fn ended(&self, fault: Option<LexFault>) -> Option<Fault>
        ensures { result ≡ ended_with self.now.text.now self.now.begun (is_nullable (left self.now.reader)) fault }
    {
        match fault {
            Some(fault) => Some(lexical(fault)),
            None if self.reader.may_end() => None,
            None => {
                let end = self.text.len() as u32;
                Some(statement_fault(self.begun.unwrap_or(end)))
            }
        }
    }

    /// Behind a token that no dump has there: what reading stops with.
    fn stopped(&mut self, token: Token, kind: Kind) -> Fault
        requires { kind ≡ terminal_of self.old.text.now token }
        ensures value { result ≡ stopped_at self.old.text.now self.old.begun token (lexed self.old.lexer) }
        ensures text { self.new.text.now ≡ self.old.text.now }
    {
        let start = self.begun.unwrap_or(token.from);
        if kind == terminal::SEMICOLON {
            return statement_fault(start);
        }
        match fault_in_statement(self.text, &mut self.lexer) {
            Some(fault) => lexical(fault),
            None => statement_fault(start),
        }
    }

    /// Takes the token behind which the lexer stands.
    fn take(&mut self, token: Token) -> Result<Ahead, AllocError>
        ensures reads { IfOk result (λ ahead. ReadsToken token ahead self.old self.new) }
        ensures text { self.new.text.now ≡ self.old.text.now }
    {
        let kind = terminal_of(self.text, &token);
        match self.reader.take(&DumpClasses, kind)? {
            None => Ok(Ahead::End(Some(self.stopped(token, kind)))),
            Some(UNSUPPORTED) => Ok(Ahead::End(Some(self.stopped(token, kind)))),
            Some(role) => {
                self.begun = begun_behind(self.begun, kind, token.from);
                Ok(Ahead::Piece(Piece { token, kind, role }))
            }
        }
    }

    /// Reads one token, kept or not.
    fn read_token(&mut self) -> Result<Ahead, AllocError>
        ensures reads { IfOk result (λ ahead. Reads ahead self.old self.new) }
        ensures text { self.new.text.now ≡ self.old.text.now }
    {
        match self.lexer.next_token() {
            Ok(Some(token)) => self.take(token),
            Ok(None) => Ok(Ahead::End(self.ended(None))),
            Err(fault) => Ok(Ahead::End(self.ended(Some(fault)))),
        }
    }

    /// The next piece that is kept.
    pub fn next_piece(&mut self) -> Result<Ahead, AllocError>
        ensures contents { IfOk result (λ ahead. contents_left self.old ≡ ahead_of ahead (contents_left self.new)) }
        ensures text { self.new.text.now ≡ self.old.text.now }
    {
        loop {
            match self.read_token()? {
                Ahead::Piece(piece) if piece.role == role::FILLER => {}
                ahead => return Ok(ahead),
            }
        }
    }
}

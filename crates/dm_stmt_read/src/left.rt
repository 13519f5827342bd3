ghost use Rattle.std.specs.Prelude.{◌≡◌, ◌≤◌, Some, IsTrue, IfSome, length};
ghost use Rattle.dm_schema.specs.Kinds.{is_kind};
ghost use Rattle.dm_stmt_read.specs.Readers.{Reads, accept, expect, front, name, literal, value, number, small, string, whole_of, small_of, bytes_in};

use crate::RecordFault;
use dm_lex::{Lexer, Token};
use dm_list::Bytes;
use dm_schema::Kind;
use dm_syntax::names::name_of;
use dm_value::{Name, Value};
use std::alloc::Global;
use std::marker::Model;

/// What is left of a text.
#[derive(Drop)]
pub struct Left<'a> {
    bytes: &'a [u8],
}

impl<'a> Model for Left<'a> {
    ghost use Rattle.std.specs.Prelude.{ℕ, List, ◌<◌, ◌^◌, length};

    ghost Value = { List ℕ };

    ghost view = { λ left. left.bytes.now };

    ghost invariant = { λ left. length left.bytes.now < 2 ^ 32 };
}

impl<'a> Left<'a> {
    ghost use Rattle.std.specs.Prelude.{◌<◌, ◌^◌};

    pub fn new(bytes: &'a [u8]) -> Left<'a>
        requires { length bytes.now < 2 ^ 32 }
        ensures { result ≡ bytes.now }
    {
        Left { bytes }
    }

    /// The same once more, to look ahead.
    pub fn again(&self) -> Left<'a>
        ensures { result ≡ self.now }
    {
        Left { bytes: self.bytes }
    }

    /// How many bytes are left.
    pub fn len(&self) -> usize
        ensures { result ≡ length self.now }
    {
        self.bytes.len()
    }

    /// Passes over the bytes, if they stand there, and says whether they do.
    #[tactic(auto, unfolding(crate::specs::Readers::accept))]
    pub fn accept(&mut self, word: &[u8]) -> bool
        ensures { accept word.now self.old ≡ Some (result, self.new) }
    {
        let stands = self.bytes.starts_with(word);
        if stands {
            self.bytes = &self.bytes[word.len()..];
        }
        stands
    }

    /// Passes over bytes that have to stand there.
    pub fn expect(&mut self, word: &[u8]) -> Result<(), RecordFault>
        ensures { Reads (expect word.now) self.old result self.new }
    {
        if self.accept(word) {
            Ok(())
        } else {
            Err(RecordFault::NotRecord)
        }
    }

    /// The first token, behind blanks.
    #[tactic(auto, unfolding(crate::specs::Readers::front))]
    fn front(&self) -> Option<Token>
        ensures value { result ≡ front self.now }
        ensures within { IfSome result (λ t. (t.from ≤ t.to) × (t.to ≤ length self.now)) }
    {
        let mut lexer = Lexer::new(self.bytes, 0);
        match lexer.next_token() {
            Ok(Some(token)) => Some(token),
            Ok(None) | Err(_) => None,
        }
    }

    #[tactic(auto, unfolding(crate::specs::Readers::name))]
    pub fn name(&mut self, alloc: Global) -> Result<Name, RecordFault>
        ensures { Reads name self.old result self.new }
    {
        let token = self.front().ok_or(RecordFault::NotRecord)?;
        let name = name_of(alloc, self.bytes, &token)?;
        self.bytes = &self.bytes[token.to as usize..];
        Ok(Name::new(name))
    }

    /// The value of a literal, in front of which a minus stands or doesn't.
    #[tactic(auto, unfolding(crate::specs::Readers::literal))]
    fn literal(&mut self, alloc: Global, kind: Kind, minus: bool) -> Result<Value, RecordFault>
        requires { IsTrue (is_kind kind) }
        ensures { Reads (literal kind minus) self.old result self.new }
    {
        let token = self.front().ok_or(RecordFault::NotRecord)?;
        let value = dm_lex::literal(alloc, self.bytes, &token, minus, &kind)?;
        self.bytes = &self.bytes[token.to as usize..];
        value.ok_or(RecordFault::NotRecord)
    }

    /// A value of a column of the kind.
    #[tactic(auto, unfolding(crate::specs::Readers::value))]
    pub fn value(&mut self, alloc: Global, kind: Kind) -> Result<Value, RecordFault>
        requires { IsTrue (is_kind kind) }
        ensures { Reads (value kind) self.old result self.new }
    {
        let minus = self.accept(b"-");
        self.literal(alloc, kind, minus)
    }

    #[tactic(auto, unfolding(crate::specs::Readers::number))]
    pub fn number(&mut self, alloc: Global) -> Result<u16, RecordFault>
        ensures { Reads number self.old result self.new }
    {
        let value = self.value(alloc, Kind::Unsigned(2))?;
        whole_of(&value).ok_or(RecordFault::NotRecord)
    }

    /// A number that a byte holds.
    #[tactic(auto, unfolding(crate::specs::Readers::small))]
    pub fn small(&mut self, alloc: Global) -> Result<u8, RecordFault>
        ensures { Reads small self.old result self.new }
    {
        let number = self.number(alloc)?;
        small_of(number).ok_or(RecordFault::NotRecord)
    }

    /// What a string says.
    #[tactic(auto, unfolding(crate::specs::Readers::string))]
    pub fn string(&mut self, alloc: Global) -> Result<Bytes, RecordFault>
        ensures { Reads string self.old result self.new }
    {
        let value = self.literal(alloc, Kind::Blob(4), false)?;
        bytes_in(value).ok_or(RecordFault::NotRecord)
    }
}

fn whole_of(value: &Value) -> Option<u16>
    ensures { result ≡ whole_of value.now }
{
    match value {
        Value::Int(number) => u16::try_from(*number).ok(),
        _ => None,
    }
}

fn small_of(number: u16) -> Option<u8>
    ensures { result ≡ small_of number }
{
    if number < 256 {
        Some(number as u8)
    } else {
        None
    }
}

fn bytes_in(value: Value) -> Option<Bytes>
    ensures { result ≡ bytes_in value }
{
    match value {
        Value::Bytes(bytes) => Some(bytes),
        _ => None,
    }
}

ghost use Rattle.std.specs.Prelude.{◌≡◌, ◌<◌, ℕ, List, All, IsTrue, IfOk};
ghost use Rattle.dm_grammar.specs.Determinism.{is_nullable, is_ready};
ghost use Rattle.dm_grammar.specs.Sentence.{IsSentence, IsReading};
ghost use Rattle.dm_grammar.specs.Reading.{read_from, ReadsAs, Takes};
ghost use Rattle.dm_grammar.specs.Meaning.{meaning};
ghost use Rattle.dm_grammar.specs.Rests.{left};

use crate::rule::{Classes, KIND_LIMIT, Kind, Role, Rule, UNSUPPORTED};
use crate::stack::{Pending, may_end, step};
use std::alloc::{AllocError, Global};

/// Why tokens are no sentence of a grammar. `at` counts tokens from 0.
#[derive(Clone, Copy, Debug, PartialEq, Eq)]
pub enum Fault {
    /// No sentence that begins with the tokens before `at` goes on with the token there, or, where `at` is the count
    /// of the tokens, ends there.
    Syntax { at: usize },
    /// The token at `at` is a word that the grammar marks as [`UNSUPPORTED`].
    Unsupported { at: usize },
}

/// What was read: a sentence, or the tokens before the first fault.
#[derive(Debug, Drop)]
pub struct Reading {
    /// One role for each token that was read.
    pub roles: Vec<Role>,
    pub fault: Option<Fault>,
}

impl Reading {
    fn stopped(roles: Vec<Role>, fault: Fault) -> Self
        ensures roles { result.roles ≡ roles }
        ensures fault { result.fault ≡ Some fault }
    {
        Reading {
            roles,
            fault: Some(fault),
        }
    }
}

/// What is left to be read of a sentence. It takes one token after another, and keeps no roles.
#[derive(Drop)]
pub struct Reader<'a> {
    stack: Vec<Pending<'a>>,
}

impl<'a> Reader<'a> {
    /// Begins a sentence of the grammar.
    pub fn new(alloc: Global, grammar: &'a Rule<'a>) -> Result<Reader<'a>, AllocError>
        ensures { IfOk result (λ reader. ReadsAs (left reader) (meaning grammar.now)) }
    {
        let mut stack = Vec::new(alloc);
        stack.push(Pending::Rule(grammar))?;
        Ok(Reader { stack })
    }

    /// Takes the next token: its role, which is [`UNSUPPORTED`] at such a word, or None where no sentence goes on with
    /// it. An `Err` is for want of memory. What is left behind a None, an [`UNSUPPORTED`] and an `Err` isn't told.
    pub fn take<C: Classes>(&mut self, classes: &C, kind: Kind) -> Result<Option<Role>, AllocError>
        ensures { IfOk result (λ taken. Takes C.has kind taken (left self.old) (left self.new)) }
    {
        step(classes, kind, &mut self.stack)
    }

    /// Whether a sentence may end here.
    pub fn may_end(&self) -> bool
        ensures { result ≡ is_nullable (left self.now) }
    {
        may_end(&self.stack)
    }
}

/// Reads a sentence of the grammar, or finds the first fault. An `Err` is for want of memory.
pub fn read<'a, C: Classes>(
    alloc: Global,
    classes: &C,
    grammar: &'a Rule<'a>,
    kinds: &[Kind],
) -> Result<Reading, AllocError>
    requires kinds { All (λ kind. kind < KIND_LIMIT) kinds.now }
    requires ready { IsTrue (is_ready C.has (meaning grammar.now)) }

    // What is read is a sentence, or begins one as far as the first fault.
    ensures exact { IfOk result (λ reading.
        IsReading C.has (meaning grammar.now) kinds.now reading.roles.items reading.fault) }
    // Each sentence is read, and has no other roles.
    ensures each_sentence { (roles : List ℕ) → IsSentence C.has (meaning grammar.now) kinds.now roles
        → IfOk result (λ reading. (reading.roles.items ≡ roles) × (reading.fault ≡ None)) }
{
    run(alloc, classes, grammar, kinds)
}

fn run<'a, C: Classes>(
    alloc: Global,
    classes: &C,
    grammar: &'a Rule<'a>,
    kinds: &[Kind],
) -> Result<Reading, AllocError>
    ensures { IfOk result (λ reading.
        (reading.roles.items, reading.fault) ≡ read_from C.has kinds.now (meaning grammar.now)) }
{
    let mut reader = Reader::new(alloc, grammar)?;
    let mut roles = Vec::with_capacity(alloc, kinds.len())?;
    for (at, kind) in kinds.iter().enumerate() {
        match reader.take(classes, *kind)? {
            None => return Ok(Reading::stopped(roles, Fault::Syntax { at })),
            Some(UNSUPPORTED) => return Ok(Reading::stopped(roles, Fault::Unsupported { at })),
            Some(role) => roles.push(role)?,
        }
    }
    if reader.may_end() {
        Ok(Reading { roles, fault: None })
    } else {
        Ok(Reading::stopped(roles, Fault::Syntax { at: kinds.len() }))
    }
}

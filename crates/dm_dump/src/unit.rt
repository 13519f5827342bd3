ghost use Rattle.std.specs.Prelude.{◌≡◌, ◌<◌, ◌^◌, ◌∷◌, [], length, IfOk, MatchBool};
ghost use Rattle.dm_dump.specs.Units.{begins_unit, units, begins_with, place_of, next_place, is_create};

use crate::fault::Fault;
use crate::role;
use crate::source::{Ahead, Source};
use dm_grammar::Role;
use dm_syntax::{Piece, has_role};
use std::alloc::{AllocError, Global};

/// A dump that is read unit by unit: a statement's beginning, or one row.
#[derive(Drop)]
pub struct Units<'a> {
    pub source: Source<'a>,
    /// The first piece of the next unit.
    pub ahead: Ahead,
}

fn begins_unit(piece: &Piece) -> bool
    ensures { result ≡ begins_unit piece.now }
{
    [
        role::END,
        role::PASSED,
        role::CREATE,
        role::INSERT,
        role::ROW_OPEN,
    ]
    .contains(&piece.role)
}

/// Whether a unit begins with a role.
pub fn begins_with(unit: &[Piece], role: Role) -> bool
    ensures { result ≡ begins_with role unit.now }
{
    match unit {
        [first, ..] => first.role == role,
        [] => false,
    }
}

/// Where a unit begins.
pub fn place_of(unit: &[Piece]) -> u32
    ensures { result ≡ place_of 0 unit.now }
{
    match unit {
        [first, ..] => first.token.from,
        [] => 0,
    }
}

/// Whether a unit begins a CREATE TABLE.
pub fn is_create(unit: &[Piece]) -> bool
    ensures { result ≡ is_create unit.now }
{
    begins_with(unit, role::CREATE) && has_role(unit, role::TABLE)
}

impl<'a> Units<'a> {
    ghost use Rattle.dm_dump.specs.Streams.{units_left, all_contents};

    pub fn new(alloc: Global, text: &'a [u8]) -> Result<Units<'a>, AllocError>
        requires { length text.now < 2 ^ 32 }
        ensures all { IfOk result (λ made. units_left made ≡ all_contents text.now) }
        ensures text { IfOk result (λ made. made.source.text.now ≡ text.now) }
    {
        let mut source = Source::new(alloc, text)?;
        let ahead = source.next_piece()?;
        Ok(Units { source, ahead })
    }

    /// Puts the next unit in place of what was in `unit`; false where there is none.
    pub fn next_unit(&mut self, unit: &mut Vec<Piece>) -> Result<bool, AllocError>
        ensures units { IfOk result (λ found. MatchBool found
            (units (units_left self.old).pieces ≡ unit.new.items ∷ units (units_left self.new).pieces)
            (((units_left self.old).pieces ≡ []) × ((units_left self.new).pieces ≡ []))) }
        ensures ending { IfOk result (λ _. (units_left self.new).ending ≡ (units_left self.old).ending) }
        ensures text { IfOk result (λ _. self.new.source.text.now ≡ self.old.source.text.now) }
    {
        unit.clear();
        let Ahead::Piece(first) = self.ahead else {
            return Ok(false);
        };
        unit.push(first)?;
        self.ahead = self.source.next_piece()?;
        while let Ahead::Piece(piece) = self.ahead
            && !begins_unit(&piece)
        {
            unit.push(piece)?;
            self.ahead = self.source.next_piece()?;
        }
        Ok(true)
    }

    /// Where the next unit begins, or the text's end.
    pub fn next_place(&self) -> u32
        ensures { result ≡ next_place self.now.source.text.now (units (units_left self.now).pieces) }
    {
        match self.ahead {
            Ahead::Piece(piece) => piece.token.from,
            Ahead::End(_) => self.source.text.len() as u32,
        }
    }

    /// Behind the last unit: why reading ends there, if it is for a fault.
    pub fn ending(&self) -> Option<Fault>
        requires { (units_left self.now).pieces ≡ [] }
        ensures { result ≡ (units_left self.now).ending }
    {
        match self.ahead {
            Ahead::Piece(_) => None,
            Ahead::End(fault) => fault,
        }
    }
}

ghost use Rattle.std.specs.Prelude.{◌≡◌, ◌<◌, ◌^◌, ◌&&◌, ◌||◌, length, IfOk, is_some, if◌then◌else◌};
ghost use Rattle.std.specs.Option.{option_or};
ghost use Rattle.dm_dump.specs.declared.role.TheConstants as role;
ghost use Rattle.dm_dump.specs.Units.{begins_with, place_of, is_create, next_place};
ghost use Rattle.dm_dump.specs.Outlines.{least, place_if, is_lex, is_torn, unless_torn, second_create, HasOutline};

use crate::fault::{DumpCause, Fault};
use crate::role;
use crate::unit::{Units, begins_with, is_create, place_of};
use dm_syntax::Piece;
use std::alloc::{AllocError, Global};

/// The bytes of a text from `from` up to `to`.
#[derive(Clone, Copy, Debug, PartialEq, Eq)]
pub struct Span {
    pub from: u32,
    pub to: u32,
}

/// What a dump consists of, up to its first fault.
#[derive(Clone, Copy, Debug, PartialEq, Eq)]
pub struct Outline {
    /// The first CREATE TABLE, from its first token up to its `;` or the text's end.
    pub create: Option<Span>,
    /// Where the first INSERT begins, unless a lexical fault stands in it.
    pub first_insert: Option<u32>,
    /// The least by place of the causes `Lex`, `Statement` and `SecondCreate`.
    pub fault: Option<Fault>,
}

/// Of two faults the one of the lower place.
pub fn least(one: Option<Fault>, other: Option<Fault>) -> Option<Fault>
    ensures { result ≡ least one other }
{
    match one {
        None => other,
        Some(first) => match other {
            None => Some(first),
            Some(second) if second.at < first.at => Some(second),
            Some(_) => Some(first),
        },
    }
}

/// Where a unit begins that passes.
fn place_if(passes: bool, unit: &[Piece]) -> Option<u32>
    ensures { result ≡ place_if passes unit.now }
{
    if passes { Some(place_of(unit)) } else { None }
}

/// A place that was found, or else where a unit begins that passes.
pub fn place_or(found: Option<u32>, passes: bool, unit: &[Piece]) -> Option<u32>
    ensures { result ≡ option_or found (place_if passes unit.now) }
{
    found.or(place_if(passes, unit))
}

/// Whether it is a lexical fault.
pub fn is_lex(cause: DumpCause) -> bool
    ensures { result ≡ is_lex cause }
{
    match cause {
        DumpCause::Lex => true,
        DumpCause::Statement
        | DumpCause::SecondCreate
        | DumpCause::Table
        | DumpCause::Columns
        | DumpCause::Count
        | DumpCause::Unfit
        | DumpCause::NoCreate
        | DumpCause::Create => false,
    }
}

fn is_torn(ending: Option<Fault>) -> bool
    ensures { result ≡ is_torn ending }
{
    match ending {
        None => false,
        Some(fault) => is_lex(fault.cause),
    }
}

/// A place, unless a lexical fault stands in the statement that begins there, which then has no `;`.
fn unless_torn(ends: bool, ending: Option<Fault>, place: Option<u32>) -> Option<u32>
    ensures { result ≡ unless_torn ends ending place }
{
    if is_torn(ending) && !ends {
        None
    } else {
        place
    }
}

/// Whether the first INSERT has ended: it had, or one was found and this unit is a `;`.
fn has_ended(ended: bool, insert: Option<u32>, unit: &[Piece]) -> bool
    ensures { result ≡ (ended || (is_some insert && begins_with role.END unit.now)) }
{
    ended || (insert.is_some() && begins_with(unit, role::END))
}

/// The fault of a second CREATE TABLE.
pub fn second_create(place: Option<u32>) -> Option<Fault>
    ensures { result ≡ second_create place }
{
    Some(Fault {
        at: place?,
        cause: DumpCause::SecondCreate,
    })
}

fn span_if(passes: bool, unit: &[Piece], to: u32) -> Option<Span>
    ensures { result ≡ (if passes then Some (record { from = place_of 0 unit.now; to = to }) else None) }
{
    if passes {
        let from = place_of(unit);
        Some(Span { from, to })
    } else {
        None
    }
}

/// What a dump consists of.
pub fn read_outline(alloc: Global, text: &[u8]) -> Result<Outline, AllocError>
    requires { length text.now < 2 ^ 32 }
    ensures { IfOk result (λ outline. HasOutline text.now outline) }
{
    let mut units = Units::new(alloc, text)?;
    let mut unit = Vec::new(alloc);
    let mut create = None;
    let mut second = None;
    let mut insert = None;
    let mut ended = false;
    while units.next_unit(&mut unit)? {
        let creates = is_create(&unit);
        second = place_or(second, creates && create.is_some(), &unit);
        create = create.or(span_if(creates, &unit, units.next_place()));
        ended = has_ended(ended, insert, &unit);
        insert = place_or(insert, begins_with(&unit, role::INSERT), &unit);
    }
    let ending = units.ending();
    Ok(Outline {
        create,
        first_insert: unless_torn(ended, ending, insert),
        fault: least(second_create(second), ending),
    })
}

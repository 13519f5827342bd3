ghost use Rattle.std.specs.Prelude.{◌≡◌, ◌<◌, ◌==◌, ◌↔◌, All, IsTrue};

use crate::{Class, Classes, Fault, KIND_LIMIT, Kind, Reading, Role, Rule, UNSUPPORTED, read};
use std::alloc::{AllocError, Global};
use std::test::Fail;

const OPENING: Kind = 1;

const CLOSING: Kind = 2;

const COMMA: Kind = 3;

const NAME: Kind = 4;

const DOT: Kind = 5;

const EQUALS: Kind = 6;

const NUMBER: Kind = 7;

const INCLUDE: Kind = 8;

// Roles of their own, where a kind has several; the others have the number of their kind.
const SETTING: Role = 20;

const PART: Role = 21;

const INNER_OPENING: Role = 22;

const INNER_CLOSING: Role = 23;

// `[name = number, a.b = [anything]]`: settings in brackets, of which `include` is not supported.
const FIRST_NAME: Rule<'static> = Rule::Word(NAME, SETTING);

const DOTTED: Rule<'static> = Rule::Word(DOT, DOT);

const NEXT_NAME: Rule<'static> = Rule::Word(NAME, PART);

const PART_BEHIND: Rule<'static> = Rule::Seq(&DOTTED, &NEXT_NAME);

const PARTS: Rule<'static> = Rule::Many(&PART_BEHIND);

const PATH: Rule<'static> = Rule::Seq(&FIRST_NAME, &PARTS);

const IS: Rule<'static> = Rule::Word(EQUALS, EQUALS);

const PLAIN: Rule<'static> = Rule::Word(NUMBER, NUMBER);

const INNER_OPEN: Rule<'static> = Rule::Word(OPENING, INNER_OPENING);

const INNER_CLOSE: Rule<'static> = Rule::Word(CLOSING, INNER_CLOSING);

const ANYTHING: Rule<'static> = Rule::Skip;

const INNER: Rule<'static> = Rule::Seq(&INNER_OPEN, &INNER_REST);

const INNER_REST: Rule<'static> = Rule::Seq(&ANYTHING, &INNER_CLOSE);

const VALUE: Rule<'static> = Rule::Or(&PLAIN, &INNER);

const ASSIGNED: Rule<'static> = Rule::Seq(&IS, &VALUE);

const ASSIGNMENT: Rule<'static> = Rule::Seq(&PATH, &ASSIGNED);

const INCLUDED: Rule<'static> = Rule::Word(INCLUDE, UNSUPPORTED);

const ITEM: Rule<'static> = Rule::Or(&ASSIGNMENT, &INCLUDED);

const ITEMS: Rule<'static> = Rule::List(&ITEM, COMMA, COMMA);

const NONE: Rule<'static> = Rule::Empty;

const CONTENT: Rule<'static> = Rule::Or(&ITEMS, &NONE);

const OPEN: Rule<'static> = Rule::Word(OPENING, OPENING);

const CLOSE: Rule<'static> = Rule::Word(CLOSING, CLOSING);

const CLOSED: Rule<'static> = Rule::Seq(&CONTENT, &CLOSE);

const SETTINGS: Rule<'static> = Rule::Seq(&OPEN, &CLOSED);

/// Each class has the kind of its number.
struct EachKind;

impl Classes for EachKind {
    ghost has = { λ class kind. class == kind };

    fn contains(&self, class: Class, kind: Kind) -> bool {
        class == kind
    }
}

fn are_kinds(kinds: &[Kind]) -> bool
    ensures { IsTrue result ↔ All (λ kind. kind < KIND_LIMIT) kinds.now }
{
    kinds.iter().all(|&kind| kind < KIND_LIMIT)
}

fn settings(alloc: Global, kinds: &[Kind]) -> Result<Reading, AllocError>
    requires { All (λ kind. kind < KIND_LIMIT) kinds.now }
{
    read(alloc, &EachKind, &SETTINGS, kinds)
}

#[test]
fn reads_sentences(rt: HostRuntime) -> Result<(), Fail> {
    // [ ]
    let none: (&[Kind], &[Role]) = (&[1, 2], &[1, 2]);
    // [ a . b = 5 , c = [ 1 [ , ] ] ]
    let two: (&[Kind], &[Role]) = (
        &[1, 4, 5, 4, 6, 7, 3, 4, 6, 1, 7, 1, 3, 2, 2, 2],
        &[1, 20, 5, 21, 6, 7, 3, 20, 6, 22, 1, 1, 1, 1, 23, 2],
    );
    for (kinds, roles) in [none, two] {
        assert!(rt; are_kinds(kinds));
        let reading = settings(rt.alloc(), kinds)?;
        assert_eq!(rt; reading.roles.as_slice(), roles);
        assert_eq!(rt; reading.fault, None);
    }
    Ok(())
}

#[test]
fn finds_first_faults(rt: HostRuntime) -> Result<(), Fail> {
    // Each text lacks a closing bracket, or goes wrong at the token that is named.
    let nothing: (&[Kind], usize) = (&[], 0);
    // [ a 5 ]
    let no_equals: (&[Kind], usize) = (&[1, 4, 7, 2], 2);
    // [ a = 5
    let open_ended: (&[Kind], usize) = (&[1, 4, 6, 7], 4);
    // [ a = 5 , ]
    let no_item: (&[Kind], usize) = (&[1, 4, 6, 7, 3, 2], 5);
    // [ a = [ 5 , 5 ] ]
    let two_in_brackets: (&[Kind], usize) = (&[1, 4, 6, 1, 7, 3, 7, 2, 2], 5);
    // [ ] ]
    let too_much: (&[Kind], usize) = (&[1, 2, 2], 2);
    for (kinds, at) in [
        nothing,
        no_equals,
        open_ended,
        no_item,
        two_in_brackets,
        too_much,
    ] {
        assert!(rt; are_kinds(kinds));
        let reading = settings(rt.alloc(), kinds)?;
        assert_eq!(rt; reading.fault, Some(Fault::Syntax { at }));
        assert_eq!(rt; reading.roles.len(), at);
    }
    // [ a = 5 , include ]
    let kinds: &[Kind] = &[1, 4, 6, 7, 3, 8, 2];
    assert!(rt; are_kinds(kinds));
    let reading = settings(rt.alloc(), kinds)?;
    assert_eq!(rt; reading.fault, Some(Fault::Unsupported { at: 5 }));
    assert_eq!(rt; reading.roles.as_slice(), [1, 20, 6, 7, 3].as_slice());
    Ok(())
}

#[test]
fn knows_empty_rules(rt: HostRuntime) {
    assert!(rt; PARTS.is_nullable());
    assert!(rt; !SETTINGS.is_nullable());
}

ghost use Rattle.std.specs.Prelude.{◌≡◌, ◌++◌, ◌∷◌, [], List, IfOk};
ghost use Rattle.dm_grammar.specs.Grammar.{Grammar, open_after};
ghost use Rattle.dm_grammar.specs.Determinism.{is_nullable, after, sequence, skip_to, with_rest};
ghost use Rattle.dm_grammar.specs.Meaning.{meaning, list, more_items, rest_of, rests_of, Advances, Steps};

use crate::rule::{Class, Classes, Kind, Role, Rule, SKIPPED};
use std::alloc::AllocError;

const OPENING: Kind = 1;

const CLOSING: Kind = 2;

const COMMA: Kind = 3;

/// A part of what is still to be read of a sentence. The parts lie on a stack, the next one on top.
#[derive(Clone, Copy)]
pub enum Pending<'a> {
    Rule(&'a Rule<'a>),
    /// More items of a list, each behind its separator.
    Items {
        item: &'a Rule<'a>,
        separator: Class,
        role: Role,
    },
    /// The rest of a skipped run, in which so many brackets are open.
    Brackets(u64),
}

impl Pending<'_> {
    fn is_nullable(&self) -> bool
        ensures { result ≡ is_nullable (rest_of self.now) }
    {
        match self {
            Pending::Rule(rule) => rule.is_nullable(),
            Pending::Items { .. } => true,
            Pending::Brackets(depth) => *depth == 0,
        }
    }
}

/// Whether a sentence may end here.
pub fn may_end(stack: &[Pending]) -> bool
    ensures { result ≡ is_nullable (sequence (rests_of stack.now)) }
{
    match stack {
        [] => true,
        [last, sooner @ ..] => may_end(sooner) && last.is_nullable(),
    }
}

/// Takes one token: answers its role, and leaves what is then to be read.
pub fn step<'a, C: Classes>(
    classes: &C,
    kind: Kind,
    stack: &mut Vec<Pending<'a>>,
) -> Result<Option<Role>, AllocError>
    ensures { IfOk result (λ taken. Steps taken
        (after C.has (sequence (rests_of stack.old.items)) kind) (rests_of stack.new.items)) }
{
    while let Some(top) = stack.pop() {
        let taken = advance_pending(classes, &top, kind, stack)?;
        if taken.is_some() || !top.is_nullable() {
            return Ok(taken);
        }
    }
    Ok(None)
}

fn advance_pending<'a, C: Classes>(
    classes: &C,
    top: &Pending<'a>,
    kind: Kind,
    stack: &mut Vec<Pending<'a>>,
) -> Result<Option<Role>, AllocError>
    ensures { IfOk result (λ taken. Advances taken (after C.has (rest_of top.now) kind)
        (rests_of stack.old.items) (rests_of stack.new.items)) }
{
    match top {
        Pending::Rule(rule) => advance(classes, rule, kind, stack),
        Pending::Items {
            item,
            separator,
            role,
        } => advance_items(classes, item, *separator, *role, kind, stack),
        Pending::Brackets(depth) => skip(*depth, kind, stack),
    }
}

/// Takes a token at the front of a rule, and puts on the stack what is to come behind it.
/// Where the rule does not begin with the token, the stack stays.
#[cycle(advance)]
fn advance<'a, C: Classes>(
    classes: &C,
    rule: &'a Rule<'a>,
    kind: Kind,
    stack: &mut Vec<Pending<'a>>,
) -> Result<Option<Role>, AllocError>
    ensures { IfOk result (λ taken. Advances taken (after C.has (meaning rule.now) kind)
        (rests_of stack.old.items) (rests_of stack.new.items)) }
{
    match rule {
        Rule::Empty => Ok(None),
        Rule::Word(class, role) => {
            if classes.contains(*class, kind) {
                Ok(Some(*role))
            } else {
                Ok(None)
            }
        }
        Rule::Skip => skip(0, kind, stack),
        Rule::Seq(first, second) => {
            match advance_before(classes, first, Pending::Rule(second), kind, stack)? {
                None if first.is_nullable() => advance(classes, second, kind, stack),
                taken => Ok(taken),
            }
        }
        Rule::Or(one, other) => match advance(classes, one, kind, stack)? {
            None => advance(classes, other, kind, stack),
            taken => Ok(taken),
        },
        Rule::Many(repeated) => advance_before(classes, repeated, Pending::Rule(rule), kind, stack),
        Rule::List(item, separator, role) => advance_list(
            classes, item, *separator, *role, kind, stack,
        ),
    }
}

/// Takes a token at the front of a rule, behind which the rest is to come.
#[cycle(advance)]
fn advance_before<'a, C: Classes>(
    classes: &C,
    rule: &'a Rule<'a>,
    rest: Pending<'a>,
    kind: Kind,
    stack: &mut Vec<Pending<'a>>,
) -> Result<Option<Role>, AllocError>
    ensures { IfOk result (λ taken. Advances taken (with_rest (rest_of rest.entry) (after C.has (meaning rule.now) kind))
        (rests_of stack.old.items) (rests_of stack.new.items)) }
{
    stack.push(rest)?;
    let taken = advance(classes, rule, kind, stack)?;
    if taken.is_none() {
        remove_last(stack);
    }
    Ok(taken)
}

/// Takes a token at the front of a list, which is a separator only where its items may be empty.
#[cycle(advance)]
fn advance_list<'a, C: Classes>(
    classes: &C,
    item: &'a Rule<'a>,
    separator: Class,
    role: Role,
    kind: Kind,
    stack: &mut Vec<Pending<'a>>,
) -> Result<Option<Role>, AllocError>
    ensures { IfOk result (λ taken. Advances taken (after C.has (list (meaning item.now) separator role) kind)
        (rests_of stack.old.items) (rests_of stack.new.items)) }
{
    let more = Pending::Items {
        item,
        separator,
        role,
    };
    match advance_before(classes, item, more, kind, stack)? {
        None if item.is_nullable() => advance_items(classes, item, separator, role, kind, stack),
        taken => Ok(taken),
    }
}

/// Takes a separator of a list, behind which an item and more items are to come.
fn advance_items<'a, C: Classes>(
    classes: &C,
    item: &'a Rule<'a>,
    separator: Class,
    role: Role,
    kind: Kind,
    stack: &mut Vec<Pending<'a>>,
) -> Result<Option<Role>, AllocError>
    ensures { IfOk result (λ taken. Advances taken (after C.has (more_items (meaning item.now) separator role) kind)
        (rests_of stack.old.items) (rests_of stack.new.items)) }
{
    if !classes.contains(separator, kind) {
        return Ok(None);
    }
    stack.push(Pending::Items {
        item,
        separator,
        role,
    })?;
    stack.push(Pending::Rule(item))?;
    Ok(Some(role))
}

/// Takes a token of a skipped run.
fn skip(depth: u64, kind: Kind, stack: &mut Vec<Pending>) -> Result<Option<Role>, AllocError>
    ensures { IfOk result (λ taken. Advances taken (skip_to (open_after depth kind))
        (rests_of stack.old.items) (rests_of stack.new.items)) }
{
    match open_after(depth, kind)? {
        None => Ok(None),
        Some(deeper) => {
            stack.push(Pending::Brackets(deeper))?;
            Ok(Some(SKIPPED))
        }
    }
}

/// The brackets that are open behind a token of a skipped run, or `None` where the token ends the run.
/// More of them than a `u64` counts are want of memory.
fn open_after(depth: u64, kind: Kind) -> Result<Option<u64>, AllocError>
    ensures { IfOk result (λ after. after ≡ open_after depth kind) }
{
    if kind == OPENING {
        let Some(deeper) = depth.checked_add(1) else {
            return Err(AllocError);
        };
        Ok(Some(deeper))
    } else if kind == CLOSING {
        if depth == 0 {
            Ok(None)
        } else {
            Ok(Some(depth - 1))
        }
    } else if kind == COMMA && depth == 0 {
        Ok(None)
    } else {
        Ok(Some(depth))
    }
}

fn remove_last(stack: &mut Vec<Pending>)
    ensures { (below : List Grammar) (top : Grammar) → rests_of stack.old.items ≡ below ++ top ∷ []
        → rests_of stack.new.items ≡ below }
{
    stack.pop();
}

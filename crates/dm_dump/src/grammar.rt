//! The grammar of dumps; `specs/Productions.antt` has it for people to read.

use crate::{class, role, terminal};
use dm_grammar::Rule;

macro_rules! all_of {
    ($only:expr) => { $only };
    ($first:expr, $($rest:expr),+) => { Rule::Seq(&$first, &all_of!($($rest),+)) };
}

macro_rules! one_of {
    ($only:expr) => { $only };
    ($first:expr, $($rest:expr),+) => { Rule::Or(&$first, &one_of!($($rest),+)) };
}

macro_rules! optional {
    ($rule:expr) => {
        Rule::Or(&Rule::Empty, &$rule)
    };
}

macro_rules! plain {
    ($class:expr) => {
        Rule::Word($class, role::FILLER)
    };
}

macro_rules! separated {
    ($item:expr) => {
        Rule::List(&$item, terminal::COMMA, role::FILLER)
    };
}

const LITERAL: Rule<'static> = one_of!(
    Rule::Seq(&plain!(terminal::MINUS), &plain!(terminal::NUMBER)),
    plain!(terminal::NUMBER),
    Rule::Seq(&plain!(terminal::INTRODUCER), &plain!(terminal::STRING)),
    plain!(terminal::STRING),
    plain!(terminal::HEXADECIMAL),
    plain!(terminal::TRUTH)
);

const ROW: Rule<'static> = all_of!(
    Rule::Word(terminal::OPENING, role::ROW_OPEN),
    optional!(separated!(LITERAL)),
    Rule::Word(terminal::CLOSING, role::ROW_CLOSE)
);

const NAMES: Rule<'static> = all_of!(
    Rule::Word(terminal::OPENING, role::NAMES_OPEN),
    optional!(separated!(Rule::Word(class::NAME, role::COLUMN))),
    Rule::Word(terminal::CLOSING, role::NAMES_CLOSE)
);

const TABLE_NAME: Rule<'static> = Rule::Seq(
    &Rule::Word(class::NAME, role::NAME),
    &optional!(Rule::Seq(
        &plain!(terminal::POINT),
        &Rule::Word(class::NAME, role::NAME)
    )),
);

const INSERT: Rule<'static> = all_of!(
    Rule::Word(terminal::INSERT, role::INSERT),
    plain!(terminal::INTO),
    TABLE_NAME,
    optional!(NAMES),
    Rule::Word(terminal::VALUES, role::VALUES),
    separated!(ROW)
);

const ANYTHING: Rule<'static> = Rule::Many(&plain!(class::ANY));

const PASSED: Rule<'static> = Rule::Seq(&Rule::Word(terminal::PASSED, role::PASSED), &ANYTHING);

const CREATE: Rule<'static> = all_of!(
    Rule::Word(terminal::CREATE, role::CREATE),
    Rule::Word(terminal::TABLE, role::TABLE),
    ANYTHING
);

const STATEMENT: Rule<'static> = optional!(one_of!(PASSED, CREATE, INSERT));

/// The grammar of dumps.
pub static DUMP_GRAMMAR: Rule<'static> = Rule::Seq(
    &STATEMENT,
    &Rule::Many(&Rule::Seq(&Rule::Word(terminal::SEMICOLON, role::END), &STATEMENT)),
);

ghost use Rattle.std.specs.Prelude.{◌≡◌};
ghost use Rattle.dm_syntax.specs.Classes.{is_between, is_word, is_name, begins_definition, is_column_name, is_type, is_query_word, begins_row_statement, begins_other_rename, continues_name, is_name_in, is_type_in, is_part_in, is_rest_in, in_class};

use crate::{class, terminal};
use dm_grammar::{Class, Classes, Kind};

/// The classes of the grammar of statements.
pub struct StatementClasses;

impl Classes for StatementClasses {
    ghost has = { in_class };

    fn contains(&self, class: Class, kind: Kind) -> bool {
        if class < 128 {
            kind == class
        } else if class < class::INTEGER {
            is_name_in(class, kind)
        } else if class < class::OTHER_SET {
            is_type_in(class, kind)
        } else if class < class::ROW {
            is_part_in(class, kind)
        } else {
            is_rest_in(class, kind)
        }
    }
}

fn is_between(low: Kind, high: Kind, kind: Kind) -> bool
    ensures { result ≡ is_between low high kind }
{
    low <= kind && kind <= high
}

fn is_word(kind: Kind) -> bool
    ensures { result ≡ is_word kind }
{
    terminal::INTRODUCER <= kind
}

fn is_name(kind: Kind) -> bool
    ensures { result ≡ is_name kind }
{
    kind == terminal::QUOTED || is_word(kind)
}

fn begins_definition(kind: Kind) -> bool
    ensures { result ≡ begins_definition kind }
{
    is_between(terminal::CONSTRAINT, terminal::SELECT, kind)
}

fn is_column_name(kind: Kind) -> bool
    ensures { result ≡ is_column_name kind }
{
    is_name(kind) && !begins_definition(kind)
}

fn is_type(kind: Kind) -> bool
    ensures { result ≡ is_type kind }
{
    is_between(terminal::TINYINT, terminal::TIMESTAMP, kind)
}

/// What makes a table of another, or splits it into partitions.
fn is_query_word(kind: Kind) -> bool
    ensures { result ≡ is_query_word kind }
{
    is_between(terminal::PARTITION, terminal::SELECT, kind) || kind == terminal::AS
}

fn begins_row_statement(kind: Kind) -> bool
    ensures { result ≡ begins_row_statement kind }
{
    kind == terminal::ROW_WORD || kind == terminal::UPDATE
}

fn begins_other_rename(kind: Kind) -> bool
    ensures { result ≡ begins_other_rename kind }
{
    kind == terminal::COLUMN
        || kind == terminal::KEY
        || kind == terminal::INDEX
        || kind == terminal::TO
        || kind == terminal::AS
}

/// What behind a name would be its second part: a point, or a number that begins with one.
fn continues_name(kind: Kind) -> bool
    ensures { result ≡ continues_name kind }
{
    kind == terminal::POINT || kind == terminal::FRACTIONAL
}

/// The classes of names.
fn is_name_in(class: Class, kind: Kind) -> bool
    ensures { result ≡ is_name_in class kind }
{
    match class {
        class::NAME => is_name(kind),
        class::WORD => is_word(kind),
        class::COLUMN_NAME => is_column_name(kind),
        class::KEY_NAME => is_column_name(kind) && kind != terminal::USING,
        class::TABLE_NAME => is_name(kind) && kind != terminal::IF,
        class::TRUNCATED => is_name(kind) && kind != terminal::TABLE,
        _ => is_name(kind) && !begins_other_rename(kind),
    }
}

/// The classes of types.
fn is_type_in(class: Class, kind: Kind) -> bool
    ensures { result ≡ is_type_in class kind }
{
    match class {
        class::INTEGER => is_between(terminal::TINYINT, terminal::BIGINT, kind),
        class::SHORT_STRING => is_between(terminal::CHAR, terminal::BINARY, kind),
        class::LONG_STRING => is_between(terminal::VARCHAR, terminal::VARBINARY, kind),
        class::LOB => is_between(terminal::TINYTEXT, terminal::LONGBLOB, kind),
        class::TIME => is_between(terminal::DATETIME, terminal::TIMESTAMP, kind),
        _ => is_word(kind) && !is_type(kind),
    }
}

/// The classes of what stands in definitions and changes.
fn is_part_in(class: Class, kind: Kind) -> bool
    ensures { result ≡ is_part_in class kind }
{
    match class {
        class::OTHER_SET => is_word(kind) && kind != terminal::CHARACTER_SET,
        class::NUMBER => is_between(terminal::WHOLE, terminal::FRACTIONAL, kind),
        class::PLAIN_LITERAL => {
            is_between(terminal::STRING, terminal::FRACTIONAL, kind)
                || is_between(terminal::NULL, terminal::TRUTH, kind)
        }
        class::KEY_OR_INDEX => is_between(terminal::KEY, terminal::INDEX, kind),
        class::PLAIN_KEY => is_between(terminal::KEY, terminal::FULLTEXT, kind),
        class::ANOTHER_TABLE => is_between(terminal::LIKE, terminal::SELECT, kind),
        class::QUERY => is_query_word(kind),
        class::TABLE_OPTION => {
            !(is_query_word(kind) || is_between(terminal::CHARSET, terminal::CHARACTER, kind))
        }
        class::OPTION_WORD => is_between(terminal::OPTION, terminal::AUTO_INCREMENT, kind),
        class::OPTION_VALUE => {
            is_word(kind)
                || kind == terminal::STRING
                || is_between(terminal::WHOLE, terminal::FRACTIONAL, kind)
        }
        _ => is_word(kind) && !is_between(terminal::ALTER, terminal::AUTO_INCREMENT, kind),
    }
}

/// The classes of what is passed over, and of the first words of statements.
fn is_rest_in(class: Class, kind: Kind) -> bool
    ensures { result ≡ is_rest_in class kind }
{
    match class {
        class::ROW => begins_row_statement(kind),
        class::ANY => true,
        class::BEHIND_NAME => !continues_name(kind),
        class::BEHIND_CREATED => !(continues_name(kind) || kind == terminal::NOT),
        class::BEHIND_NAMES => !(continues_name(kind) || kind == terminal::COMMA),
        class::BEHIND_DROPPED => {
            !(continues_name(kind) || kind == terminal::COMMA || kind == terminal::EXISTS)
        }
        class::OTHER_STATEMENT => {
            !(is_between(terminal::CREATE, terminal::RENAME, kind) || begins_row_statement(kind))
        }
        class::NOT_CREATED => {
            !(kind == terminal::TABLE || is_between(terminal::UNIQUE, terminal::FULLTEXT, kind))
        }
        class::NOT_DROPPED => !(kind == terminal::TABLE || kind == terminal::INDEX),
        class::NOT_TABLE => kind != terminal::TABLE,
        _ => kind != terminal::INDEX,
    }
}

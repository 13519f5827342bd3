ghost use Rattle.std.specs.Prelude.{◌≡◌, ◌<◌, All, IfOk, List, ℕ, None};
ghost use Rattle.dm_grammar.specs.Grammar.{Or};
ghost use Rattle.dm_grammar.specs.Meaning.{meaning};
ghost use Rattle.dm_grammar.specs.Sentence.{IsSentence, IsReading};
ghost use Rattle.dm_syntax.specs.Classes.{in_class};
ghost use Rattle.dm_syntax.specs.Productions.{column_definition, placed_column, added_columns, modify_change, create_table_statement, alter_table_statement, other_statement, create_table_start, alter_table_start, other_start};

use crate::classes::StatementClasses;
use crate::productions::*;
use crate::{role, terminal};
use dm_grammar::{KIND_LIMIT, Kind, Reading, Rule};
use std::alloc::{AllocError, Global};

/// A CREATE TABLE.
pub fn read_create_table(alloc: Global, kinds: &[Kind]) -> Result<Reading, AllocError>
    requires { All (λ kind. kind < KIND_LIMIT) kinds.now }
    ensures exact { IfOk result (λ reading.
        IsReading in_class create_table_statement kinds.now reading.roles.items reading.fault) }
    ensures each_sentence { (roles : List ℕ) → IsSentence in_class create_table_statement kinds.now roles
        → IfOk result (λ reading. (reading.roles.items ≡ roles) × (reading.fault ≡ None)) }
{
    create_table_of(alloc, &COLUMN_DEFINITION, kinds)
}

/// A CREATE TABLE whose columns have this definition.
fn create_table_of<'a>(
    alloc: Global,
    column: &'a Rule<'a>,
    kinds: &[Kind],
) -> Result<Reading, AllocError>
    requires kinds { All (λ kind. kind < KIND_LIMIT) kinds.now }
    requires column { meaning column.now ≡ column_definition }
    ensures exact { IfOk result (λ reading.
        IsReading in_class create_table_statement kinds.now reading.roles.items reading.fault) }
    ensures each_sentence { (roles : List ℕ) → IsSentence in_class create_table_statement kinds.now roles
        → IfOk result (λ reading. (reading.roles.items ≡ roles) × (reading.fault ≡ None)) }
{
    let definition = Rule::Or(column, &KEY_DEFINITION);
    let definitions = Rule::List(&definition, terminal::COMMA, role::DEFINITION);
    let inside = Rule::Seq(&definitions, &TABLE_END);
    let body = Rule::Seq(&DEFINITIONS_OPENING, &inside);
    let created = Rule::Or(&body, &QUERY);
    let table = Rule::Seq(&CREATE_TABLE_HEAD, &created);
    let statement = Rule::Seq(&CREATE_WORD, &table);
    dm_grammar::read(alloc, &StatementClasses, &statement, kinds)
}

/// An ALTER TABLE.
pub fn read_alter_table(alloc: Global, kinds: &[Kind]) -> Result<Reading, AllocError>
    requires { All (λ kind. kind < KIND_LIMIT) kinds.now }
    ensures exact { IfOk result (λ reading.
        IsReading in_class alter_table_statement kinds.now reading.roles.items reading.fault) }
    ensures each_sentence { (roles : List ℕ) → IsSentence in_class alter_table_statement kinds.now roles
        → IfOk result (λ reading. (reading.roles.items ≡ roles) × (reading.fault ≡ None)) }
{
    alter_table_modifying(alloc, &MODIFY_CHANGE, kinds)
}

/// An ALTER TABLE that modifies columns so.
fn alter_table_modifying<'a>(
    alloc: Global,
    modify: &'a Rule<'a>,
    kinds: &[Kind],
) -> Result<Reading, AllocError>
    requires kinds { All (λ kind. kind < KIND_LIMIT) kinds.now }
    requires modify { meaning modify.now ≡ modify_change }
    ensures exact { IfOk result (λ reading.
        IsReading in_class alter_table_statement kinds.now reading.roles.items reading.fault) }
    ensures each_sentence { (roles : List ℕ) → IsSentence in_class alter_table_statement kinds.now roles
        → IfOk result (λ reading. (reading.roles.items ≡ roles) × (reading.fault ≡ None)) }
{
    alter_table_adding(alloc, modify, &PLACED_COLUMN, kinds)
}

/// An ALTER TABLE that modifies columns so, and adds one column so.
fn alter_table_adding<'a>(
    alloc: Global,
    modify: &'a Rule<'a>,
    placed: &'a Rule<'a>,
    kinds: &[Kind],
) -> Result<Reading, AllocError>
    requires kinds { All (λ kind. kind < KIND_LIMIT) kinds.now }
    requires modify { meaning modify.now ≡ modify_change }
    requires placed { meaning placed.now ≡ placed_column }
    ensures exact { IfOk result (λ reading.
        IsReading in_class alter_table_statement kinds.now reading.roles.items reading.fault) }
    ensures each_sentence { (roles : List ℕ) → IsSentence in_class alter_table_statement kinds.now roles
        → IfOk result (λ reading. (reading.roles.items ≡ roles) × (reading.fault ≡ None)) }
{
    let columns = Rule::Or(placed, &ADDED_COLUMNS);
    alter_table_by(alloc, &columns, modify, kinds)
}

/// An ALTER TABLE that adds columns so, and modifies them so.
fn alter_table_by<'a>(
    alloc: Global,
    columns: &'a Rule<'a>,
    modify: &'a Rule<'a>,
    kinds: &[Kind],
) -> Result<Reading, AllocError>
    requires kinds { All (λ kind. kind < KIND_LIMIT) kinds.now }
    requires columns { meaning columns.now ≡ Or placed_column added_columns }
    requires modify { meaning modify.now ≡ modify_change }
    ensures exact { IfOk result (λ reading.
        IsReading in_class alter_table_statement kinds.now reading.roles.items reading.fault) }
    ensures each_sentence { (roles : List ℕ) → IsSentence in_class alter_table_statement kinds.now roles
        → IfOk result (λ reading. (reading.roles.items ≡ roles) × (reading.fault ≡ None)) }
{
    let named = Rule::Seq(&MAYBE_COLUMN, columns);
    let added = Rule::Or(&named, &ADDED_KEY);
    let add = Rule::Seq(&ADD_WORD, &added);
    let other = Rule::Or(modify, &OTHER_CHANGE);
    let change = Rule::Or(&add, &other);
    let changes = Rule::List(&change, terminal::COMMA, role::FILLER);
    let table = Rule::Seq(&ALTER_TABLE_HEAD, &changes);
    let statement = Rule::Seq(&ALTER_WORD, &table);
    dm_grammar::read(alloc, &StatementClasses, &statement, kinds)
}

/// Another statement.
pub fn read_other(alloc: Global, kinds: &[Kind]) -> Result<Reading, AllocError>
    requires { All (λ kind. kind < KIND_LIMIT) kinds.now }
    ensures exact { IfOk result (λ reading.
        IsReading in_class other_statement kinds.now reading.roles.items reading.fault) }
    ensures each_sentence { (roles : List ℕ) → IsSentence in_class other_statement kinds.now roles
        → IfOk result (λ reading. (reading.roles.items ≡ roles) × (reading.fault ≡ None)) }
{
    dm_grammar::read(alloc, &StatementClasses, &OTHER_STATEMENT, kinds)
}

/// The head of a CREATE TABLE.
pub fn read_create_table_start(alloc: Global, kinds: &[Kind]) -> Result<Reading, AllocError>
    requires { All (λ kind. kind < KIND_LIMIT) kinds.now }
    ensures exact { IfOk result (λ reading.
        IsReading in_class create_table_start kinds.now reading.roles.items reading.fault) }
    ensures each_sentence { (roles : List ℕ) → IsSentence in_class create_table_start kinds.now roles
        → IfOk result (λ reading. (reading.roles.items ≡ roles) × (reading.fault ≡ None)) }
{
    dm_grammar::read(alloc, &StatementClasses, &CREATE_TABLE_START, kinds)
}

/// The head of an ALTER TABLE.
pub fn read_alter_table_start(alloc: Global, kinds: &[Kind]) -> Result<Reading, AllocError>
    requires { All (λ kind. kind < KIND_LIMIT) kinds.now }
    ensures exact { IfOk result (λ reading.
        IsReading in_class alter_table_start kinds.now reading.roles.items reading.fault) }
    ensures each_sentence { (roles : List ℕ) → IsSentence in_class alter_table_start kinds.now roles
        → IfOk result (λ reading. (reading.roles.items ≡ roles) × (reading.fault ≡ None)) }
{
    dm_grammar::read(alloc, &StatementClasses, &ALTER_TABLE_START, kinds)
}

/// The head of another statement.
pub fn read_other_start(alloc: Global, kinds: &[Kind]) -> Result<Reading, AllocError>
    requires { All (λ kind. kind < KIND_LIMIT) kinds.now }
    ensures exact { IfOk result (λ reading.
        IsReading in_class other_start kinds.now reading.roles.items reading.fault) }
    ensures each_sentence { (roles : List ℕ) → IsSentence in_class other_start kinds.now roles
        → IfOk result (λ reading. (reading.roles.items ≡ roles) × (reading.fault ≡ None)) }
{
    dm_grammar::read(alloc, &StatementClasses, &OTHER_START, kinds)
}

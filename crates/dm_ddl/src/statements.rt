ghost use Rattle.std.specs.Prelude.{◌≡◌, ◌<◌, ◌^◌, Ok, None, length, IfOk, IsTrue};
ghost use Rattle.dm_list.specs.Answer.{Answers};
ghost use Rattle.dm_ddl.specs.declared.statements.Statement.{Statement};
ghost use Rattle.dm_syntax.specs.declared.parsing.Extent.TheVariants as extent;
ghost use Rattle.dm_ddl.specs.Bounds.{items_of, first_excess};
ghost use Rattle.dm_syntax.specs.Parsing.{is_memory, OrMemory, Says};
ghost use Rattle.dm_ddl.specs.Statements.{are_changes, alters, alter_of, statement_of, statement_unless};

use crate::altering::changes_in;
use crate::bounds::first_excess;
use crate::creating::{has_unfit, schema_in};
use crate::names::{Named, first_table};
use dm_schema::{Changes, Schema, SchemaFault};
use dm_syntax::{DdlFault, Extent, Piece, has_role, parse, role};
use std::alloc::Global;

/// What a statement says of a table's schema.
#[derive(Debug, Drop)]
pub enum Statement {
    /// `only_new`: IF NOT EXISTS is written.
    Create {
        table: Named,
        schema: Schema,
        only_new: bool,
    },
    /// ALTER TABLE, CREATE INDEX or DROP INDEX.
    Alter {
        table: Named,
        changes: Changes,
    },
    /// Any other statement.
    Other,
}

/// What a statement says, or the first fault: of the tokens; then the one of the lowest place, that the grammar has no
/// such statement, or that it isn't supported; then that the schema can't be made.
pub fn read_statement(alloc: Global, text: &[u8]) -> Result<Statement, DdlFault>
    requires { length text.now < 2 ^ 32 }
    // What is answered is what the text says by the grammar.
    ensures exact { OrMemory (Says extent.Whole (statement_unless text.now) text.now) result }
    // Each statement is read, and says nothing else.
    ensures each { (statement : Statement) → Says extent.Whole (statement_unless text.now) text.now (Ok statement) → Answers is_memory result (Ok statement) }
    // Schemas can be made by its changes.
    ensures formed { IfOk result (λ statement. IsTrue (are_changes statement)) }
{
    let parsed = parse(alloc, text, Extent::Whole)?;
    statement_unless(alloc, text, &parsed.pieces, parsed.fault)
}

/// What the pieces say, up to the first fault.
fn statement_unless(
    alloc: Global,
    text: &[u8],
    pieces: &[Piece],
    fault: Option<DdlFault>,
) -> Result<Statement, DdlFault>
    requires { length text.now < 2 ^ 32 }
    ensures { Answers is_memory result (statement_unless text.now pieces.now fault) }
{
    if let Some(piece) = first_excess(text, pieces) {
        return Err(DdlFault::Unsupported {
            at: piece.token.from,
        });
    }
    match fault {
        Some(fault) => Err(fault),
        None => statement_of(alloc, text, pieces),
    }
}

fn statement_of(alloc: Global, text: &[u8], pieces: &[Piece]) -> Result<Statement, DdlFault>
    requires few { length text.now < 2 ^ 32 }
    requires bounds { first_excess text.now (items_of pieces.now) ≡ None }
    ensures { Answers is_memory result (statement_of text.now pieces.now) }
{
    if has_role(pieces, role::CREATE_TABLE) {
        match schema_in(alloc, text, pieces) {
            Ok(schema) => Ok(Statement::Create {
                table: first_table(alloc, text, pieces)?,
                schema,
                only_new: has_role(pieces, role::EXISTS),
            }),
            Err(fault) => Err(fault),
        }
    } else if alters(pieces) {
        alter_of(alloc, text, pieces)
    } else {
        Ok(Statement::Other)
    }
}

/// Whether it is an ALTER TABLE, or what is one by another name.
fn alters(pieces: &[Piece]) -> bool
    ensures { result ≡ alters pieces.now }
{
    has_role(pieces, role::ALTER_TABLE)
        || has_role(pieces, role::UNIQUE_INDEX)
        || has_role(pieces, role::PLAIN_INDEX)
        || has_role(pieces, role::DROP_INDEX)
}

fn alter_of(alloc: Global, text: &[u8], pieces: &[Piece]) -> Result<Statement, DdlFault>
    requires few { length text.now < 2 ^ 32 }
    requires bounds { first_excess text.now (items_of pieces.now) ≡ None }
    ensures { Answers is_memory result (alter_of text.now pieces.now) }
{
    if has_unfit(alloc, text, &[], pieces)? {
        return Err(DdlFault::Made(SchemaFault::DefaultUnfit));
    }
    Ok(Statement::Alter {
        table: first_table(alloc, text, pieces)?,
        changes: Changes::new(changes_in(alloc, text, pieces)?),
    })
}

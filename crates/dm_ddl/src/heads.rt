ghost use Rattle.std.specs.Prelude.{◌≡◌, ◌<◌, ◌^◌, Ok, length, IfOk};
ghost use Rattle.dm_list.specs.Answer.{Answers};
ghost use Rattle.dm_ddl.specs.declared.heads.Head.{Head};
ghost use Rattle.dm_syntax.specs.declared.parsing.Extent.TheVariants as extent;
ghost use Rattle.dm_ddl.specs.Heads.{head_of, head_unless};
ghost use Rattle.dm_syntax.specs.Parsing.{is_memory, OrMemory, Says};

use crate::names::{Named, Tables, first_table, tables_in};
use dm_syntax::{DdlFault, Extent, Piece, has_role, parse, role};
use std::alloc::{AllocError, Global};

/// What kind of statement a text is, and the tables that it names.
#[derive(Debug, Drop, PartialEq, Eq)]
pub enum Head {
    /// `only_new`: IF NOT EXISTS is written.
    Create { table: Named, only_new: bool },
    Alter(Named),
    CreateIndex(Named),
    DropIndex(Named),
    DropTable(Tables),
    Truncate(Named),
    /// The old and the new name of each rename in turn.
    Rename(Tables),
    /// INSERT, REPLACE, UPDATE, DELETE or LOAD.
    RowStatement,
    /// Any other statement, those on temporary tables among them.
    NotTable,
}

/// The head of a statement, or the first fault: of the tokens, then of the grammar of heads.
pub fn read_head(alloc: Global, text: &[u8]) -> Result<Head, DdlFault>
    requires { length text.now < 2 ^ 32 }
    // What is answered is what the text says by the grammar.
    ensures exact { OrMemory (Says extent.Head (head_unless text.now) text.now) result }
    // Each head is read, and says nothing else.
    ensures each { (head : Head) → Says extent.Head (head_unless text.now) text.now (Ok head) → Answers is_memory result (Ok head) }
{
    let parsed = parse(alloc, text, Extent::Head)?;
    match parsed.fault {
        Some(fault) => Err(fault),
        None => Ok(head_of(alloc, text, &parsed.pieces)?),
    }
}

/// What the roles of a statement's head say of it.
fn head_of(alloc: Global, text: &[u8], pieces: &[Piece]) -> Result<Head, AllocError>
    ensures { IfOk result (λ head. head ≡ head_of text.now pieces.now) }
{
    if has_role(pieces, role::CREATE_TABLE) {
        Ok(Head::Create {
            table: first_table(alloc, text, pieces)?,
            only_new: has_role(pieces, role::EXISTS),
        })
    } else if has_role(pieces, role::ALTER_TABLE) {
        Ok(Head::Alter(first_table(alloc, text, pieces)?))
    } else if has_role(pieces, role::UNIQUE_INDEX) || has_role(pieces, role::PLAIN_INDEX) {
        Ok(Head::CreateIndex(first_table(alloc, text, pieces)?))
    } else if has_role(pieces, role::DROP_INDEX) {
        Ok(Head::DropIndex(first_table(alloc, text, pieces)?))
    } else if has_role(pieces, role::DROP_TABLE) {
        Ok(Head::DropTable(Tables::new(tables_in(alloc, text, pieces)?)))
    } else if has_role(pieces, role::TRUNCATE) {
        Ok(Head::Truncate(first_table(alloc, text, pieces)?))
    } else if has_role(pieces, role::RENAME_TABLE) {
        Ok(Head::Rename(Tables::new(tables_in(alloc, text, pieces)?)))
    } else if has_role(pieces, role::ROW_STATEMENT) {
        Ok(Head::RowStatement)
    } else {
        Ok(Head::NotTable)
    }
}

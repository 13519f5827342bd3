ghost use Rattle.std.specs.Prelude.{◌≡◌, ◌<◌, ◌∷◌, ◌==◌, [], map, drop, IfOk};
ghost use Rattle.std.specs.List.{filter};
ghost use Rattle.dm_syntax.specs.Pieces.{begins, parts};
ghost use Rattle.dm_syntax.specs.Names.{name_with};
ghost use Rattle.dm_ddl.specs.Names.{table_in, is_table_part, tables_in, first_table};

use dm_list::Sequence;
use dm_syntax::names::name_with;
use dm_syntax::{Piece, has_role, next_part, role};
use dm_value::Name;
use std::alloc::{AllocError, Global};

/// A table as a statement names it, its database where it is written.
#[derive(Debug, Drop, PartialEq, Eq)]
pub struct Named {
    pub db: Option<Name>,
    pub table: Name,
}

/// The tables that a statement names, in order.
pub type Tables = Sequence<Named>;

fn table_in(alloc: Global, text: &[u8], part: &[Piece]) -> Result<Named, AllocError>
    ensures { IfOk result (λ table. table ≡ table_in text.now part.now) }
{
    let first = name_with(alloc, text, part, role::NAME_PART)?;
    if has_role(part, role::NAME_SECOND) {
        Ok(Named {
            db: Some(first),
            table: name_with(alloc, text, part, role::NAME_SECOND)?,
        })
    } else {
        Ok(Named {
            db: None,
            table: first,
        })
    }
}

/// Whether a part is a name: IF before EXISTS is none.
fn is_table_part(part: &[Piece]) -> bool
    ensures { result ≡ is_table_part part.now }
{
    !has_role(part, role::EXISTS)
}

/// The tables that a statement names.
pub fn tables_in(alloc: Global, text: &[u8], pieces: &[Piece]) -> Result<Vec<Named>, AllocError>
    ensures { IfOk result (λ tables. tables.items ≡ tables_in text.now pieces.now) }
{
    let mut tables = Vec::new(alloc);
    let mut rest = pieces;
    while let Some((part, behind)) = next_part(rest, &[role::NAME_PART]) {
        if is_table_part(part) {
            tables.push(table_in(alloc, text, part)?)?;
        }
        rest = behind;
    }
    Ok(tables)
}

/// The table that a statement is about.
pub fn first_table(alloc: Global, text: &[u8], pieces: &[Piece]) -> Result<Named, AllocError>
    ensures { IfOk result (λ table. table ≡ first_table text.now pieces.now) }
{
    let tables = tables_in(alloc, text, pieces)?;
    match tables.into_iter().next() {
        Some(table) => Ok(table),
        None => Ok(Named {
            db: None,
            table: Name::new(Vec::new(alloc)),
        }),
    }
}

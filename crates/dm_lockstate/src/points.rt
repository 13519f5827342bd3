ghost use Rattle.std.specs.Prelude.{◌≡◌, IfOk};
ghost use Rattle.std.specs.Option.{option_copied, option_and_then};
ghost use Rattle.std.specs.List.{list_all};
ghost use Rattle.dm_schema.specs.Names.{has_column};
ghost use Rattle.dm_schema.specs.Fill.{fill};
ghost use Rattle.dm_lockstate.specs.Lock.{narrows, narrows_to, same_fill};

use dm_schema::{Column, Name, Schema, Value, fill, has_column, kind_at_most};
use std::alloc::{AllocError, Global};

/// Whether a joined column becomes narrower, or NOT NULL.
pub fn narrows(before: Option<&Column>, after: Option<&Column>) -> bool
    ensures { result ≡ narrows (option_copied before.entry) (option_copied after.entry) }
{
    match (before, after) {
        (Some(before), Some(after)) => narrows_to(before, after),
        _ => false,
    }
}

fn narrows_to(before: &Column, after: &Column) -> bool
    ensures { result ≡ narrows_to before.now after.now }
{
    kind_at_most(after.kind, before.kind) && after.kind != before.kind
        || before.nullable && !after.nullable
}

/// Whether two columns have the same fill, or neither has one.
pub fn have_same_fill(
    alloc: Global,
    one: Option<&Column>,
    other: Option<&Column>,
) -> Result<bool, AllocError>
    ensures { IfOk result (λ same. same
        ≡ same_fill (option_and_then fill (option_copied one.entry)) (option_and_then fill (option_copied other.entry))) }
{
    let one = fill_of(alloc, one)?;
    let other = fill_of(alloc, other)?;
    Ok(is_same_fill(&one, &other))
}

fn fill_of(alloc: Global, column: Option<&Column>) -> Result<Option<Value>, AllocError>
    ensures { IfOk result (λ value. value ≡ option_and_then fill (option_copied column.entry)) }
{
    match column {
        Some(column) => fill(alloc, column),
        None => Ok(None),
    }
}

fn is_same_fill(one: &Option<Value>, other: &Option<Value>) -> bool
    ensures { result ≡ same_fill one.now other.now }
{
    match (one, other) {
        (None, None) => true,
        (Some(one), Some(other)) => *one == *other,
        _ => false,
    }
}

/// Whether each schema has a column of the name.
pub fn all_have(schemas: &[Schema], name: &Name) -> bool
    ensures { result ≡ list_all (λ s. has_column s.columns name.now) schemas.now }
{
    schemas
        .iter()
        .all(|schema| has_column(schema.columns(), name))
}

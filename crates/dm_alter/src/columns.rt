ghost use Rattle.std.specs.Prelude.{◌≡◌, ◌++◌, ◌∷◌, [], IfOk, OnOk};
ghost use Rattle.dm_schema.specs.Effect.{without_column, put_after, placed, replaced, modified};

use dm_schema::{Column, Copied, Name, Spot};
use std::alloc::{AllocError, Global};

/// Copies of a list's members.
pub fn copied<T: Copied>(alloc: Global, list: &[T]) -> Result<Vec<T>, AllocError>
    ensures { IfOk result (λ copies. copies.items ≡ list.now) }
{
    let mut copies = Vec::with_capacity(alloc, list.len())?;
    for member in list {
        copies.push(member.copy(alloc)?)?;
    }
    Ok(copies)
}

/// The columns without the one of a name.
pub fn without_column(
    alloc: Global,
    columns: &[Column],
    name: &Name,
) -> Result<Vec<Column>, AllocError>
    ensures { IfOk result (λ rest. rest.items ≡ without_column columns.now name.now) }
{
    let mut rest = Vec::with_capacity(alloc, columns.len())?;
    for column in columns {
        if column.name != *name {
            rest.push(column.copy(alloc)?)?;
        }
    }
    Ok(rest)
}

/// The columns with another in the place of the one that has its name.
pub fn replaced(
    alloc: Global,
    column: &Column,
    columns: &[Column],
) -> Result<Vec<Column>, AllocError>
    ensures { IfOk result (λ all. all.items ≡ replaced column.now columns.now) }
{
    let mut all = Vec::with_capacity(alloc, columns.len())?;
    for other in columns {
        let kept = if other.name == column.name {
            column
        } else {
            other
        };
        all.push(kept.copy(alloc)?)?;
    }
    Ok(all)
}

/// The columns with another behind the one of a name.
fn put_after(
    alloc: Global,
    name: &Name,
    column: &Column,
    columns: &[Column],
) -> Result<Vec<Column>, AllocError>
    ensures { IfOk result (λ all. all.items ≡ put_after name.now column.now columns.now) }
{
    let mut all = Vec::new(alloc);
    for other in columns {
        push_with_next(&mut all, alloc, other, name, column)?;
    }
    Ok(all)
}

/// Adds a column, and behind it the next one, where its name is that name.
fn push_with_next(
    all: &mut Vec<Column>,
    alloc: Global,
    column: &Column,
    name: &Name,
    next: &Column,
) -> Result<(), AllocError>
    ensures { OnOk result (all.new.items ≡ all.old.items ++ put_after name.now next.now (column.now ∷ [])) }
{
    all.push(column.copy(alloc)?)?;
    if column.name == *name {
        all.push(next.copy(alloc)?)?;
    }
    Ok(())
}

/// The columns with a further one at its spot.
pub fn placed(
    alloc: Global,
    spot: &Spot,
    column: &Column,
    columns: &[Column],
) -> Result<Vec<Column>, AllocError>
    ensures { IfOk result (λ all. all.items ≡ placed spot.now column.now columns.now) }
{
    match spot {
        Spot::Keep | Spot::Last => with_last(copied(alloc, columns)?, column.copy(alloc)?),
        Spot::First => with_first(copied(alloc, columns)?, column.copy(alloc)?),
        Spot::After(name) => put_after(alloc, name, column, columns),
    }
}

/// The columns with one of them as it is now, at its spot.
pub fn modified(
    alloc: Global,
    spot: &Spot,
    column: &Column,
    columns: &[Column],
) -> Result<Vec<Column>, AllocError>
    ensures { IfOk result (λ all. all.items ≡ modified spot.now column.now columns.now) }
{
    match spot {
        Spot::Keep => replaced(alloc, column, columns),
        Spot::Last => with_last(
            without_column(alloc, columns, &column.name)?,
            column.copy(alloc)?,
        ),
        Spot::First => with_first(
            without_column(alloc, columns, &column.name)?,
            column.copy(alloc)?,
        ),
        Spot::After(name) => moved_behind(alloc, name, column, columns),
    }
}

/// The columns with one of them as it is now, behind another. Behind itself it stays where it is.
fn moved_behind(
    alloc: Global,
    name: &Name,
    column: &Column,
    columns: &[Column],
) -> Result<Vec<Column>, AllocError>
    ensures { IfOk result (λ all. all.items ≡ modified (Spot.After name.now) column.now columns.now) }
{
    if *name == column.name {
        return replaced(alloc, column, columns);
    }
    let others = without_column(alloc, columns, &column.name)?;
    put_after(alloc, name, column, &others)
}

fn with_last(mut columns: Vec<Column>, column: Column) -> Result<Vec<Column>, AllocError>
    ensures { IfOk result (λ all. all.items ≡ columns.items ++ column ∷ []) }
{
    columns.push(column)?;
    Ok(columns)
}

fn with_first(mut columns: Vec<Column>, column: Column) -> Result<Vec<Column>, AllocError>
    ensures { IfOk result (λ all. all.items ≡ column ∷ columns.items) }
{
    columns.insert(0, column)?;
    Ok(columns)
}

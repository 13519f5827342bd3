ghost use Rattle.std.specs.Prelude.{◌≡◌, ◌<◌, length, unwrap_or, IfOk, IfSome};
ghost use Rattle.std.specs.List.{position};
ghost use Rattle.dm_value.specs.declared.value.Value.TheVariants as value;
ghost use Rattle.dm_schema.specs.Fill.{fill};
ghost use Rattle.dm_schema.specs.Names.{same_name};
ghost use Rattle.dm_top.specs.Places.{value_from, origin_of, key_origins, filled, column_origins};

use dm_schema::{Column, fill};
use dm_value::{Name, Value};
use std::alloc::{AllocError, Global};

/// Where a value of a row stands: a place in the row, and the value that is taken where the row has none there.
#[derive(Debug, Drop)]
pub struct Origin {
    pub place: Option<usize>,
    pub otherwise: Value,
}

impl Origin {
    /// Where the value in the column of a name stands.
    fn of(columns: &[Column], name: &Name, otherwise: Value) -> Origin
        ensures { result ≡ origin_of columns.now name.now otherwise }
    {
        let place = place_of(columns, name);
        Origin { place, otherwise }
    }

    /// The value of a row.
    pub fn value<'a>(&'a self, row: &'a [Value]) -> &'a Value
        ensures { result.now ≡ value_from row.now self.now }
    {
        let Some(place) = self.place else {
            return &self.otherwise;
        };
        match row.get(place) {
            Some(value) => value,
            None => &self.otherwise,
        }
    }
}

/// The place of the column of a name.
fn place_of(columns: &[Column], name: &Name) -> Option<usize>
    ensures value { result ≡ position (λ c. same_name c.name name.now) columns.now }
    ensures within { IfSome result (λ place. place < length columns.now) }
{
    columns.iter().position(|column| column.name == *name)
}

/// Where the values in the columns of these names stand; where there is no such column, NULL.
pub fn key_origins(
    alloc: Global,
    columns: &[Column],
    names: &[Name],
) -> Result<Vec<Origin>, AllocError>
    ensures { IfOk result (λ origins. origins.items ≡ key_origins columns.now names.now) }
{
    let mut origins = Vec::with_capacity(alloc, names.len())?;
    for name in names {
        origins.push(Origin::of(columns, name, Value::Null))?;
    }
    Ok(origins)
}

fn filled(alloc: Global, column: &Column) -> Result<Value, AllocError>
    ensures { IfOk result (λ found. found ≡ filled column.now) }
{
    match fill(alloc, column)? {
        Some(value) => Ok(value),
        None => Ok(Value::Null),
    }
}

/// Where the values of a row of these columns stand for the join's columns; where it lacks one, the column's fill.
pub fn column_origins(
    alloc: Global,
    joined: &[Column],
    columns: &[Column],
) -> Result<Vec<Origin>, AllocError>
    ensures { IfOk result (λ origins. origins.items ≡ column_origins joined.now columns.now) }
{
    let mut origins = Vec::with_capacity(alloc, joined.len())?;
    for column in joined {
        let otherwise = filled(alloc, column)?;
        origins.push(Origin::of(columns, &column.name, otherwise))?;
    }
    Ok(origins)
}

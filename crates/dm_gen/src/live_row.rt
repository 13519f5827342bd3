ghost use Rattle.std.specs.Prelude.{◌≡◌, IsTrue, IfOk};
ghost use Rattle.std.specs.Cmp.Lexicographic.{pointwise};
ghost use Rattle.dm_schema.specs.Fits.{fits};
ghost use Rattle.dm_gen.specs.Schemas.{columns_after};
ghost use Rattle.dm_gen.specs.Steps.{row_of};

use dm_value::{Row, Value};
use std::alloc::{AllocError, Global};

/// A row of a source's table. Before the first statement `d` isn't one of its columns, and is what the statement will
/// give it.
#[derive(Clone, Copy, Debug)]
pub struct LiveRow {
    pub id: u32,
    pub u: u32,
    pub v: u16,
    pub d: u8,
}

/// The row's values, when so many statements are done.
pub fn row_of(alloc: Global, row: LiveRow, done: u32) -> Result<Row, AllocError>
    ensures value { IfOk result (λ values. values ≡ row_of done row) }
    ensures fits { IfOk result (λ values. IsTrue (pointwise fits values (columns_after done))) }
{
    let mut values = Vec::with_capacity(alloc, 4)?;
    values.push(Value::Int(i128::from(row.id)))?;
    values.push(Value::Int(i128::from(row.u)))?;
    values.push(Value::Int(i128::from(row.v)))?;
    if done >= 1 {
        values.push(Value::Int(i128::from(row.d)))?;
    }
    Ok(Row::new(values))
}

ghost use Rattle.std.specs.Prelude.{◌≡◌, IfOk, is_some, replicate};
ghost use Rattle.dm_schema.specs.Fill.{fill, fill_for_missing, zero_of};

use crate::{Column, DefaultRule, Kind};
use dm_list::{Bytes, Copied};
use dm_value::{Dec, Value};
use std::alloc::{AllocError, Global};

/// What rows get in a column that they were there before: its constant default; else NULL where it is nullable
/// without a default; else, without a default, the zero of its kind. `None` where there is none of these.
pub fn fill(alloc: Global, column: &Column) -> Result<Option<Value>, AllocError>
    ensures { IfOk result (λ value. value ≡ fill column.now) }
{
    match (&column.default_rule, column.nullable) {
        (DefaultRule::Const(value), _) => Ok(Some(value.copy(alloc)?)),
        (DefaultRule::Nothing, true) => Ok(Some(Value::Null)),
        (DefaultRule::Nothing, false) => zero_of(alloc, column.kind),
        (DefaultRule::Now, _) => Ok(None),
    }
}

/// What rows get in a column that they don't name: its constant default, or NULL where it is nullable without one.
pub fn fill_for_missing(alloc: Global, column: &Column) -> Result<Option<Value>, AllocError>
    ensures { IfOk result (λ value. value ≡ fill_for_missing column.now) }
{
    match (&column.default_rule, column.nullable) {
        (DefaultRule::Const(value), _) => Ok(Some(value.copy(alloc)?)),
        (DefaultRule::Nothing, true) => Ok(Some(Value::Null)),
        _ => Ok(None),
    }
}

/// Whether rows need not name the column.
pub fn has_fill_for_missing(column: &Column) -> bool
    ensures { result ≡ is_some (fill_for_missing column.now) }
{
    match column.default_rule {
        DefaultRule::Const(_) => true,
        DefaultRule::Nothing => column.nullable,
        DefaultRule::Now => false,
    }
}

/// Whether rows that were there before the column get something in it.
pub fn has_fill(column: &Column) -> bool
    ensures { result ≡ is_some (fill column.now) }
{
    match column.default_rule {
        DefaultRule::Const(_) => true,
        DefaultRule::Nothing => column.nullable || has_zero(column.kind),
        DefaultRule::Now => false,
    }
}

fn has_zero(kind: Kind) -> bool
    ensures { result ≡ is_some (zero_of kind) }
{
    !matches!(
        kind,
        Kind::Date | Kind::Year | Kind::Datetime(_) | Kind::Timestamp(_)
    )
}

/// The zero of a kind. Days, years and moments have none.
fn zero_of(alloc: Global, kind: Kind) -> Result<Option<Value>, AllocError>
    ensures { IfOk result (λ value. value ≡ zero_of kind) }
{
    Ok(match kind {
        Kind::Signed(_) | Kind::Unsigned(_) => Some(Value::Int(0)),
        Kind::Decimal(_, scale) => Some(Value::Dec(Dec { digits: 0, scale })),
        Kind::Char(_) | Kind::Varchar(_) | Kind::Text(_) | Kind::Varbinary(_) | Kind::Blob(_) =>
            Some(Value::Bytes(Bytes::new(Vec::new(alloc)))),
        Kind::Binary(size) => Some(Value::Bytes(zero_bytes(alloc, size)?)),
        Kind::Date | Kind::Year | Kind::Datetime(_) | Kind::Timestamp(_) => None,
    })
}

fn zero_bytes(alloc: Global, count: u16) -> Result<Bytes, AllocError>
    ensures { IfOk result (λ bytes. bytes ≡ replicate count 0) }
{
    let bytes = vec![in alloc; 0; usize::from(count)]?;
    Ok(Bytes::new(bytes))
}

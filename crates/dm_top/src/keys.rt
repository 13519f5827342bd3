ghost use Rattle.std.specs.Prelude.{◌≡◌, ◌++◌, [], ◌∷◌, map, IfOk, OnOk, if◌then◌else◌};
ghost use Rattle.std.specs.List.{list_any};
ghost use Rattle.std.specs.Option.{option_map};
ghost use Rattle.dm_schema.specs.Names.{repeats};
ghost use Rattle.dm_top.specs.Load.{is_null, values_under, same_row};
ghost use Rattle.dm_top.specs.Merge.{by_primary_key, has_null, without_null};

use crate::order::in_order;
use crate::places::{Origin, key_origins};
use dm_schema::{Schema, UniqueKey};
use dm_value::{Row, Value};
use std::alloc::{AllocError, Global};

/// The rows in the order of their primary keys; none where two have one key.
pub fn by_primary_key<'a>(
    alloc: Global,
    joined: &Schema,
    rows: &'a [Row],
) -> Result<Option<Vec<&'a Row>>, AllocError>
    ensures { IfOk result (λ sorted. option_map (λ rows. map (λ row. row.now) rows.items) sorted ≡ by_primary_key joined.now rows.now) }
{
    let origins = key_origins(alloc, joined.columns(), joined.primary().as_slice())?;
    let lent = references(alloc, rows)?;
    let sorted = in_order(&origins, lent)?;
    Ok(sorted)
}

fn references<'a>(alloc: Global, rows: &'a [Row]) -> Result<Vec<&'a Row>, AllocError>
    ensures { IfOk result (λ lent. map (λ row. row.now) lent.items ≡ rows.now) }
{
    let mut lent = Vec::with_capacity(alloc, rows.len())?;
    for row in rows {
        lent.push(row)?;
    }
    Ok(lent)
}

/// Whether two rows have the same values under some unique key; a NULL among them makes them equal to none.
pub fn share_unique(alloc: Global, joined: &Schema, rows: &[&Row]) -> Result<bool, AllocError>
    ensures { IfOk result (λ shared. shared ≡ list_any (λ key. repeats same_row (values_under joined.now (map (λ row. row.now) rows.now) key)) joined.now.uniques) }
{
    for key in joined.uniques() {
        if share_key(alloc, joined, rows, key)? {
            return Ok(true);
        }
    }
    Ok(false)
}

/// Whether two rows have the same values under a key.
fn share_key(
    alloc: Global,
    joined: &Schema,
    rows: &[&Row],
    key: &UniqueKey,
) -> Result<bool, AllocError>
    ensures { IfOk result (λ shared. shared ≡ repeats same_row (values_under joined.now (map (λ row. row.now) rows.now) key.now)) }
{
    let origins = key_origins(alloc, joined.columns(), key.columns.as_slice())?;
    let whole = without_null(alloc, &origins, rows)?;
    let sorted = in_order(&origins, whole)?;
    Ok(sorted.is_none())
}

/// The rows that have no NULL among their values at some places.
fn without_null<'a>(
    alloc: Global,
    origins: &[Origin],
    rows: &[&'a Row],
) -> Result<Vec<&'a Row>, AllocError>
    ensures { IfOk result (λ whole. map (λ row. row.now) whole.items ≡ without_null origins.now (map (λ row. row.now) rows.now)) }
{
    let mut whole = Vec::new(alloc);
    for row in rows {
        push_whole(origins, &mut whole, *row)?;
    }
    Ok(whole)
}

/// Adds a row that has no NULL among its values at some places.
fn push_whole<'a>(
    origins: &[Origin],
    whole: &mut Vec<&'a Row>,
    row: &'a Row,
) -> Result<(), AllocError>
    ensures { OnOk result (map (λ row. row.now) whole.new.items ≡ map (λ row. row.now) whole.old.items ++ (if has_null origins.now row.now then [] else row.now ∷ [])) }
{
    if !has_null(origins, row.as_slice()) {
        whole.push(row)?;
    }
    Ok(())
}

fn has_null(origins: &[Origin], row: &[Value]) -> bool
    ensures { result ≡ has_null origins.now row.now }
{
    origins.iter().any(|origin| is_null(origin.value(row)))
}

fn is_null(value: &Value) -> bool
    ensures { result ≡ is_null value.now }
{
    matches!(value, Value::Null)
}

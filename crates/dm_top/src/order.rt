ghost use Rattle.std.specs.Prelude.{◌≡◌, map, IfOk};
ghost use Rattle.std.specs.Option.{option_map};
ghost use Rattle.std.specs.Ordering.{is_lt};
ghost use Rattle.dm_value.specs.Order.{row_cmp};
ghost use Rattle.dm_top.specs.Merge.{AreInOrder};
ghost use Rattle.dm_top.specs.Places.{values_from};

use crate::places::Origin;
use dm_value::{Row, Value};
use std::alloc::AllocError;
use std::cmp::Ordering;

/// How the values of two rows compare, one value after another.
fn compare_at(origins: &[Origin], one: &[Value], next: &[Value]) -> Ordering
    ensures { result ≡ row_cmp (values_from origins.now one.now) (values_from origins.now next.now) }
{
    let [origin, origins @ ..] = origins else {
        return Ordering::Equal;
    };
    match origin.value(one).cmp(origin.value(next)) {
        Ordering::Equal => compare_at(origins, one, next),
        unequal => unequal,
    }
}

fn is_before(origins: &[Origin], one: &Row, next: &Row) -> bool
    ensures { result ≡ is_lt (row_cmp (values_from origins.now one.now) (values_from origins.now next.now)) }
{
    compare_at(origins, one.as_slice(), next.as_slice()).is_lt()
}

/// The rows in the order of their values at some places; none where two rows have the same values there.
pub fn in_order<'a>(
    origins: &[Origin],
    mut rows: Vec<&'a Row>,
) -> Result<Option<Vec<&'a Row>>, AllocError>
    ensures { IfOk result (λ sorted. AreInOrder origins.now (map (λ row. row.now) rows.entry.items) (option_map (λ rows. map (λ row. row.now) rows.items) sorted)) }
{
    rows.sort_by(|one, next| compare_at(origins, one.as_slice(), next.as_slice()))?;
    if rows.is_sorted_by(|one, next| is_before(origins, one, next)) {
        Ok(Some(rows))
    } else {
        Ok(None)
    }
}

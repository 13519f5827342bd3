ghost use Rattle.std.specs.Prelude.{◌≡◌, ◌≤◌, List, ℕ, length, insert, IfOk, OnOk};
ghost use Rattle.std.specs.Ordering.{is_lt};
ghost use Rattle.dm_schema.specs.Names.{name_cmp};
ghost use Rattle.dm_schema.specs.NameOrder.{put_by, in_order_of};

use crate::{Column, UniqueKey};
use dm_list::Copied;
use dm_value::Name;
use std::alloc::{AllocError, Global};

/// What has a name by which it is put in order.
pub trait Named: Copied {
    ghost name: { Self → List ℕ };

    fn name(&self) -> &Name
        ensures { result.now ≡ name self.now };
}

impl Named for Column {
    ghost name = { λ column. column.name };

    fn name(&self) -> &Name {
        &self.name
    }
}

impl Named for UniqueKey {
    ghost name = { λ key. key.name };

    fn name(&self) -> &Name {
        &self.name
    }
}

/// Copies of the list in byte order of names.
pub fn in_name_order<T: Named>(alloc: Global, list: &[T]) -> Result<Vec<T>, AllocError>
    ensures { IfOk result (λ ordered. ordered.items ≡ in_order_of T.name list.now) }
{
    match list {
        [] => Ok(Vec::new(alloc)),
        [first, rest @ ..] => {
            let mut ordered = in_name_order(alloc, rest)?;
            put_by_name(&mut ordered, first.copy(alloc)?)?;
            Ok(ordered)
        }
    }
}

/// Puts an item before the first that has a greater name.
fn put_by_name<T: Named>(list: &mut Vec<T>, item: T) -> Result<(), AllocError>
    ensures { OnOk result (list.new.items ≡ put_by T.name item list.old.items) }
{
    let place = place_by_name(list, &item);
    list.insert(place, item)?;
    Ok(())
}

/// How many items stand before the first that has a greater name than the item.
fn place_by_name<T: Named>(list: &[T], item: &T) -> usize
    ensures within { result ≤ length list.now }
    ensures place { insert list.now result item.now ≡ put_by T.name item.now list.now }
{
    match list {
        [] => 0,
        [first, rest @ ..] => {
            if is_before(item.name(), first.name()) {
                0
            } else {
                place_by_name(rest, item) + 1
            }
        }
    }
}

/// Whether a name comes before another in byte order.
fn is_before(name: &Name, other: &Name) -> bool
    ensures { result ≡ is_lt (name_cmp name.now other.now) }
{
    name.cmp(other).is_lt()
}

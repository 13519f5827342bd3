ghost use Rattle.std.specs.Prelude.{◌≡◌, IfOk};
ghost use Rattle.dm_schema.specs.Schemas.{in_order};

use dm_list::Copied;
use dm_schema::{Schema, in_name_order};
use std::alloc::{AllocError, Global};

#[tactic(auto, using(crate::proofs::Ordering::ordered_columns, crate::proofs::Ordering::ordered_keys, crate::proofs::Ordering::ordered_makes))]
/// The schema with its columns and unique keys in byte order of their names.
pub fn in_order(alloc: Global, schema: &Schema) -> Result<Schema, AllocError>
    ensures { IfOk result (λ ordered. ordered ≡ in_order schema.now) }
{
    let columns = in_name_order(alloc, schema.columns())?;
    let uniques = in_name_order(alloc, schema.uniques())?;
    match Schema::joined(columns, schema.primary().copy(alloc)?, uniques) {
        Ok(ordered) => Ok(ordered),
        Err(_) => unreachable!(),
    }
}

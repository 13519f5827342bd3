ghost use Rattle.std.specs.Prelude.{◌≡◌, ◌<◌, length, IfOk};
ghost use Rattle.std.specs.List.{list_any, list_all};
ghost use Rattle.dm_list.specs.Answer.{Answers};
ghost use Rattle.dm_schema.specs.Schemas.{same_unique};
ghost use Rattle.dm_join.specs.AtMost.{same_names};
ghost use Rattle.dm_join.specs.Join.{join, common_uniques, first_name, is_memory};

use crate::groups::{columns_by_name, joined_columns};
use crate::schema_order::has_unique;
use crate::{JoinCause, NoJoin};
use dm_schema::{Copied, Schema, UniqueKey, in_name_order};
use dm_value::Name;
use std::alloc::{AllocError, Global};

/// The join of one schema or more: the least that each of them is at most. Where there is none, the first reason: the
/// primary keys differ; else, for the first column in byte order of names at which something speaks against it, two
/// families, kinds that aren't comparable, two defaults, or no fill for those that lack it.
///
/// The columns are sorted once by name; those of one name are compared with one another.
pub fn join(alloc: Global, schemas: &[Schema]) -> Result<Schema, NoJoin>
    requires { 0 < length schemas.now }
    ensures { Answers is_memory result (join schemas.now) }
{
    let first = &schemas[0];
    if !share_primary(schemas, first) {
        return Err(NoJoin::At {
            column: first_name(alloc, first.primary().as_slice())?,
            cause: JoinCause::Primary,
        });
    }
    let columns = columns_by_name(alloc, schemas)?;
    let joined = joined_columns(alloc, schemas, &columns)?.into_vec();
    let uniques = common_uniques(alloc, schemas)?;
    let primary = first.primary().copy(alloc)?;
    Ok(Schema::joined(joined, primary, uniques).unwrap())
}

/// Whether all schemas have this one's primary key.
fn share_primary(schemas: &[Schema], first: &Schema) -> bool
    ensures { result ≡ list_all (λ s. same_names first.now.primary s.primary) schemas.now }
{
    schemas
        .iter()
        .all(|schema| *first.primary() == *schema.primary())
}

fn first_name(alloc: Global, names: &[Name]) -> Result<Name, AllocError>
    ensures { IfOk result (λ name. name ≡ first_name names.now) }
{
    match names {
        [] => Ok(Name::new(Vec::new(alloc))),
        [first, ..] => first.copy(alloc),
    }
}

/// The unique keys that all schemas have, in byte order of names.
fn common_uniques(alloc: Global, schemas: &[Schema]) -> Result<Vec<UniqueKey>, AllocError>
    requires { 0 < length schemas.now }
    ensures { IfOk result (λ uniques. uniques.items ≡ common_uniques schemas.now) }
{
    let mut common = Vec::new(alloc);
    for key in schemas[0].uniques() {
        if all_have(schemas, key) {
            common.push(key.copy(alloc)?)?;
        }
    }
    in_name_order(alloc, &common)
}

fn all_have(schemas: &[Schema], key: &UniqueKey) -> bool
    ensures { result ≡ list_all (λ s. list_any (same_unique key.now) s.uniques) schemas.now }
{
    schemas.iter().all(|schema| has_unique(schema, key))
}

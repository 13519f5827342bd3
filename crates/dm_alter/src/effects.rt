ghost use Rattle.std.specs.Prelude.{[], Ok, IsTrue};
ghost use Rattle.std.specs.List.{list_all};
ghost use Rattle.dm_list.specs.Answer.{Answers};
ghost use Rattle.dm_schema.specs.Effect.{is_change, step, steps, ddl_effect, joined_effect};
ghost use Rattle.dm_alter.specs.Answers.{is_memory};
ghost use Rattle.dm_alter.specs.Making.{making_of};

use crate::changed::{Bound, changed};
use crate::defaults::DefaultReading;
use crate::refusals::refusal;
use dm_schema::{Change, Copied, EffectFault, Schema};
use std::alloc::Global;

/// The schema after the changes of a statement, from left to right, or the first fault: of the first change that has
/// one, the first in the order of [`EffectFault`].
pub fn effect<R: DefaultReading>(
    alloc: Global,
    reading: &R,
    schema: &Schema,
    changes: &[Change],
) -> Result<Schema, EffectFault>
    requires { IsTrue (list_all is_change changes.now) }
    ensures { Answers is_memory result (ddl_effect (R.reads reading.now) schema.now changes.now) }
{
    after_all(alloc, reading, Bound::Read, schema, changes)
}

/// The same for a schema that may have any number of columns, as a join of schemas may.
pub fn effect_joined<R: DefaultReading>(
    alloc: Global,
    reading: &R,
    schema: &Schema,
    changes: &[Change],
) -> Result<Schema, EffectFault>
    requires { IsTrue (list_all is_change changes.now) }
    ensures { Answers is_memory result (joined_effect (R.reads reading.now) schema.now changes.now) }
{
    after_all(alloc, reading, Bound::Joined, schema, changes)
}

fn after_all<R: DefaultReading>(
    alloc: Global,
    reading: &R,
    bound: Bound,
    schema: &Schema,
    changes: &[Change],
) -> Result<Schema, EffectFault>
    requires { IsTrue (list_all is_change changes.now) }
    ensures { Answers is_memory result (steps (making_of bound) (R.reads reading.now) [] (Ok schema.now) changes.now) }
{
    let mut after = schema.copy(alloc)?;
    for (number, change) in changes.iter().enumerate() {
        let (before, _) = changes.split_at(number);
        after = after_one(alloc, reading, bound, before, &after, change)?;
    }
    Ok(after)
}

/// The schema after one change, behind those before it.
fn after_one<R: DefaultReading>(
    alloc: Global,
    reading: &R,
    bound: Bound,
    before: &[Change],
    schema: &Schema,
    change: &Change,
) -> Result<Schema, EffectFault>
    requires { IsTrue (is_change change.now) }
    ensures { Answers is_memory result (step (making_of bound) (R.reads reading.now) before.now schema.now change.now) }
{
    if let Some(fault) = refusal(alloc, reading, before, schema, change)? {
        return Err(fault);
    }
    changed(alloc, reading, schema, change)?.made(bound)
}

ghost use Rattle.std.specs.Prelude.{◌≡◌, IfOk, IsErrOf, IsTrue, Some, None};
ghost use Rattle.std.specs.List.{list_all};
ghost use Rattle.dm_journal.specs.Altering.{names_folded};
ghost use Rattle.dm_schema.specs.Kinds.{is_folded};
ghost use Rattle.dm_alter.specs.Answers.{is_memory};
ghost use Rattle.dm_stmt.specs.Records.{is_written_change};
ghost use Rattle.dm_journal.specs.Contents.{no_default, changed_by};

use crate::fault::CarryFault;
use dm_alter::{DefaultReading, effect_joined};
use dm_schema::{Change, EffectFault, Kind, Name, Schema, Value, is_folded};
use std::alloc::{AllocError, Global};

/// No change of a record has a default as a text.
struct NoDefaults;

impl DefaultReading for NoDefaults {
    ghost reads = { λ _. no_default };

    fn value(&self, _: Global, _: Kind, _: &[u8]) -> Result<Option<Value>, AllocError> {
        Ok(None)
    }
}

/// The schema that a record's changes make of one.
pub(crate) fn changed_schema(
    alloc: Global,
    schema: &Schema,
    changes: &[Change],
) -> Result<Schema, CarryFault>
    requires { IsTrue (list_all is_written_change changes.now) }
    ensures made { IfOk result (λ after. changed_by changes.now schema.now ≡ Some after) }
    ensures refused { IsErrOf result CarryFault.Bad → changed_by changes.now schema.now ≡ None }
{
    // Columns of a schema have no capital letters, so a key of others is refused, if no change before it is.
    let _ = schema.columns();
    if !all_folded(changes) {
        return Err(CarryFault::Bad);
    }
    match effect_joined(alloc, &NoDefaults, schema, changes) {
        Ok(after) => Ok(after),
        Err(fault) if is_memory(fault) => Err(CarryFault::Memory),
        Err(_) => Err(CarryFault::Bad),
    }
}

fn all_folded(changes: &[Change]) -> bool
    ensures { result ≡ list_all names_folded changes.now }
{
    changes.iter().all(names_folded)
}

/// Whether the columns of a key that the change adds are named without capital letters.
fn names_folded(change: &Change) -> bool
    ensures { result ≡ names_folded change.now }
{
    match change {
        Change::AddUnique { key, .. } => are_folded(key.columns.as_slice()),
        _ => true,
    }
}

fn are_folded(names: &[Name]) -> bool
    ensures { result ≡ list_all is_folded names.now }
{
    names.iter().all(|name| is_folded(name.as_slice()))
}

fn is_memory(fault: EffectFault) -> bool
    ensures { result ≡ is_memory fault }
{
    matches!(fault, EffectFault::Memory)
}

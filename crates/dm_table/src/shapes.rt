ghost use Rattle.std.specs.Prelude.{◌≡◌};
ghost use Rattle.std.specs.List.{list_any};
ghost use Rattle.dm_schema.specs.Names.{same_name};
ghost use Rattle.dm_schema.specs.Schemas.{names_repeat};
ghost use Rattle.dm_table.specs.Shapes.{is_key_shaped, is_shaped, pairs_up};

use crate::RowOp;
use dm_schema::Schema;
use dm_value::{Name, Value};

/// Whether an operation has the shape that is asked of those of a table with this schema: it names one column at least and
/// none twice, with a value for each, and its key has as many values as the primary key has columns.
pub fn is_shaped(schema: &Schema, op: &RowOp) -> bool
    ensures { result ≡ is_shaped schema.now op.now }
{
    match op {
        RowOp::Insert { columns, row } | RowOp::Replace { columns, row } => {
            pairs_up(columns.as_slice(), row.as_slice())
        }
        RowOp::Update { columns, key, row } => {
            pairs_up(columns.as_slice(), row.as_slice()) && is_key_shaped(schema, key.as_slice())
        }
        RowOp::Delete { key } | RowOp::Erase { key } => is_key_shaped(schema, key.as_slice()),
    }
}

fn pairs_up(names: &[Name], row: &[Value]) -> bool
    ensures { result ≡ pairs_up names.now row.now }
{
    names.len() != 0 && !names_repeat(names) && row.len() == names.len()
}

fn is_key_shaped(schema: &Schema, key: &[Value]) -> bool
    ensures { result ≡ is_key_shaped schema.now key.now }
{
    key.len() == schema.primary().as_slice().len()
}

fn names_repeat(names: &[Name]) -> bool
    ensures { result ≡ names_repeat names.now }
{
    match names {
        [] => false,
        [first, rest @ ..] => has_name(rest, first) || names_repeat(rest),
    }
}

fn has_name(names: &[Name], name: &Name) -> bool
    ensures { result ≡ list_any (λ other. same_name name.now other) names.now }
{
    names.iter().any(|other| *name == *other)
}

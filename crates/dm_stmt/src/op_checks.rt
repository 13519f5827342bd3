ghost use Rattle.std.specs.Prelude.{◌≡◌, IsTrue, IfSome};
ghost use Rattle.std.specs.List.{list_any, list_all};
ghost use Rattle.std.specs.Option.{option_copied};
ghost use Rattle.dm_schema.specs.Kinds.{is_column};
ghost use Rattle.dm_schema.specs.Names.{column_at, same_name};
ghost use Rattle.dm_schema.specs.Schemas.{names_repeat};
ghost use Rattle.dm_stmt.specs.Texts.{columns_named};
ghost use Rattle.dm_stmt.specs.Records.{fit_columns, is_key_row, is_op, names_row};

use dm_schema::{Column, Schema, all_columns, fits};
use dm_table::RowOp;
use dm_value::{Name, Value};

/// Whether an operation is as the schema of its table asks.
pub(crate) fn is_op(schema: &Schema, op: &RowOp) -> bool
    ensures { result ≡ is_op schema.now op.now }
{
    match op {
        RowOp::Insert { columns, row } | RowOp::Replace { columns, row } => {
            names_row(schema, columns.as_slice(), row.as_slice())
        }
        RowOp::Update { columns, key, row } => {
            names_row(schema, columns.as_slice(), row.as_slice())
                && is_key_row(schema, key.as_slice())
        }
        RowOp::Delete { key } | RowOp::Erase { key } => is_key_row(schema, key.as_slice()),
    }
}

/// Whether names are of columns, one at least and none twice, and the values fit them.
fn names_row(schema: &Schema, names: &[Name], row: &[Value]) -> bool
    ensures { result ≡ names_row schema.now names.now row.now }
{
    !names.is_empty()
        && all_columns(schema.columns(), names)
        && !names_repeat(names)
        && fit_columns(schema.columns(), names, row)
}

/// Whether values are those of a primary key.
fn is_key_row(schema: &Schema, key: &[Value]) -> bool
    ensures { result ≡ is_key_row schema.now key.now }
{
    fit_columns(schema.columns(), schema.primary().as_slice(), key)
}

/// Whether there are as many values as columns of these names, and each fits its column.
fn fit_columns(columns: &[Column], names: &[Name], row: &[Value]) -> bool
    requires { IsTrue (list_all is_column columns.now) }
    ensures { result ≡ fit_columns (columns_named columns.now names.now) row.now }
{
    let [name, names @ ..] = names else {
        return row.is_empty();
    };
    let Some(column) = column_at(columns, name) else {
        return fit_columns(columns, names, row);
    };
    let [value, row @ ..] = row else {
        return false;
    };
    fits(value, column) && fit_columns(columns, names, row)
}

fn column_at<'a>(columns: &'a [Column], name: &Name) -> Option<&'a Column>
    requires { IsTrue (list_all is_column columns.now) }
    ensures value { option_copied result ≡ column_at columns.now name.now }
    ensures column { IfSome result (λ column. IsTrue (is_column column.now)) }
{
    columns.iter().find(|column| column.name == *name)
}

fn names_repeat(names: &[Name]) -> bool
    ensures { result ≡ names_repeat names.now }
{
    let mut rest = names;
    while let [first, behind @ ..] = rest {
        if has_name(behind, first) {
            return true;
        }
        rest = behind;
    }
    false
}

fn has_name(names: &[Name], name: &Name) -> bool
    ensures { result ≡ list_any (λ other. same_name name.now other) names.now }
{
    names.iter().any(|other| *name == *other)
}

ghost use Rattle.std.specs.Prelude.{◌≡◌, ◌≤◌, ◌&&◌, not, length, unwrap_or};
ghost use Rattle.std.specs.Option.{option_copied};
ghost use Rattle.std.specs.List.{list_any};
ghost use Rattle.std.specs.Ordering.{eq_by_cmp};
ghost use Rattle.dm_value.specs.declared.value.Value.TheVariants as value;
ghost use Rattle.dm_value.specs.Order.{value_cmp};
ghost use Rattle.dm_schema.specs.Kinds.{is_null};
ghost use Rattle.dm_schema.specs.Keys.{key_number};
ghost use Rattle.dm_schema.specs.Rows.{values_at};
ghost use Rattle.dm_table.specs.Contents.{same_row, agree_in, share_unique};

use crate::TableFault;
use crate::cells::cell;
use dm_schema::{Column, Schema, UniqueKey};
use dm_value::{Name, Row, Value};

/// Whether two rows agree in a unique key.
pub fn share_unique(schema: &Schema, one: &Row, other: &Row) -> bool
    ensures { result ≡ share_unique schema.now one.now other.now }
{
    let columns = schema.columns();
    schema
        .uniques()
        .iter()
        .any(|key| agree_in(key, columns, one, other))
}

/// Whether two rows have the same values under a unique key, none of them NULL.
pub fn agree_in(key: &UniqueKey, columns: &[Column], one: &Row, other: &Row) -> bool
    ensures { result ≡ agree_in key.now columns.now one.now other.now }
{
    let names = key.columns.as_slice();
    agree_at(names, columns, one.as_slice(), other.as_slice())
}

/// Whether two rows have the same values in the columns of these names, none of them NULL.
fn agree_at(names: &[Name], columns: &[Column], one: &[Value], other: &[Value]) -> bool
    ensures { result ≡ (not (list_any is_null (values_at columns.now one.now names.now)) && same_row (values_at columns.now one.now names.now) (values_at columns.now other.now names.now)) }
{
    match names {
        [] => true,
        [name, rest @ ..] => {
            are_same(cell(columns, one, name), cell(columns, other, name))
                && agree_at(rest, columns, one, other)
        }
    }
}

/// Whether there are two values, which are equal and not NULL.
fn are_same(one: Option<&Value>, other: Option<&Value>) -> bool
    ensures { result ≡ (not (is_null (unwrap_or (option_copied one.entry) value.Null)) && eq_by_cmp value_cmp (unwrap_or (option_copied one.entry) value.Null) (unwrap_or (option_copied other.entry) value.Null)) }
{
    let Some(one) = one else {
        return false;
    };
    let Some(other) = other else {
        return false;
    };
    !matches!(one, Value::Null) && one.cmp(other).is_eq()
}

/// Two rows agree in a unique key.
pub fn duplicate(schema: &Schema, key: &UniqueKey) -> TableFault
    ensures { result ≡ TableFault.Duplicate (key_number schema.now.uniques key.now) }
{
    TableFault::Duplicate {
        key: key_number(schema.uniques(), key),
    }
}

/// The place of a unique key among the others in byte order of names, from 1.
fn key_number(uniques: &[UniqueKey], key: &UniqueKey) -> u8
    requires { length uniques.now ≤ 16 }
    ensures { result ≡ key_number uniques.now key.now }
{
    let before = uniques
        .iter()
        .filter(|other| other.name.cmp(&key.name).is_lt())
        .count();
    1 + before as u8
}

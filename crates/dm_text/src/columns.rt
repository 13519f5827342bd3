ghost use Rattle.std.specs.Prelude.{◌≡◌, ◌++◌, codes, OnOk};
ghost use Rattle.std.specs.List.{flat_map};
ghost use Rattle.dm_text.specs.Columns.{nullable_text, default_text, column_text, column_part, primary_part, unique_part, parts_text, create_text};

use crate::kinds::{fraction_digits, push_fraction, push_kind};
use crate::names::{push_name, push_name_list};
use crate::values::push_value;
use dm_schema::{Column, DefaultRule, Kind, Schema, UniqueKey};
use dm_value::Name;
use std::alloc::{AllocError, Global};

/// Adds a column: its name, its type, whether it is nullable, and its default.
pub fn push_column(alloc: Global, out: &mut Vec<u8>, column: &Column) -> Result<(), AllocError>
    ensures { OnOk result (out.new.items ≡ out.old.items ++ column_text column.now) }
{
    push_name(out, &column.name)?;
    out.push(b' ')?;
    push_kind(alloc, out, column.kind)?;
    push_nullable(out, column.nullable)?;
    push_default(alloc, out, column.kind, &column.default_rule)
}

/// Adds the statement that makes a table, with a line end. `name` is the text of the table's name, in backquotes and
/// with or without a database.
pub fn push_create(
    alloc: Global,
    out: &mut Vec<u8>,
    name: &[u8],
    schema: &Schema,
) -> Result<(), AllocError>
    ensures { OnOk result (out.new.items ≡ out.old.items ++ create_text name.now schema.now) }
{
    out.extend_from_slice(b"CREATE TABLE ")?;
    out.extend_from_slice(name)?;
    out.extend_from_slice(b" (")?;
    push_parts(alloc, out, schema)?;
    out.extend_from_slice(b");\n")?;
    Ok(())
}

fn push_nullable(out: &mut Vec<u8>, nullable: bool) -> Result<(), AllocError>
    ensures { OnOk result (out.new.items ≡ out.old.items ++ nullable_text nullable) }
{
    if nullable {
        out.extend_from_slice(b" NULL")
    } else {
        out.extend_from_slice(b" NOT NULL")
    }
}

fn push_default(
    alloc: Global,
    out: &mut Vec<u8>,
    kind: Kind,
    rule: &DefaultRule,
) -> Result<(), AllocError>
    ensures { OnOk result (out.new.items ≡ out.old.items ++ default_text kind rule.now) }
{
    match rule {
        DefaultRule::Nothing => Ok(()),
        DefaultRule::Const(value) => {
            out.extend_from_slice(b" DEFAULT ")?;
            push_value(alloc, out, kind, value)
        }
        DefaultRule::Now => {
            out.extend_from_slice(b" DEFAULT CURRENT_TIMESTAMP")?;
            push_fraction(alloc, out, fraction_digits(kind))
        }
    }
}

/// Adds the columns and keys of a create.
fn push_parts(alloc: Global, out: &mut Vec<u8>, schema: &Schema) -> Result<(), AllocError>
    ensures { OnOk result (out.new.items ≡ out.old.items ++ parts_text schema.now) }
{
    push_columns(alloc, out, schema.columns())?;
    push_primary(out, schema.primary().as_slice())?;
    push_uniques(out, schema.uniques())
}

fn push_columns(alloc: Global, out: &mut Vec<u8>, columns: &[Column]) -> Result<(), AllocError>
    ensures { OnOk result (out.new.items ≡ out.old.items ++ flat_map column_part columns.now) }
{
    for column in columns {
        push_column(alloc, out, column)?;
        out.extend_from_slice(b", ")?;
    }
    Ok(())
}

fn push_primary(out: &mut Vec<u8>, names: &[Name]) -> Result<(), AllocError>
    ensures { OnOk result (out.new.items ≡ out.old.items ++ primary_part names.now) }
{
    out.extend_from_slice(b"PRIMARY KEY ")?;
    push_name_list(out, names)
}

fn push_uniques(out: &mut Vec<u8>, uniques: &[UniqueKey]) -> Result<(), AllocError>
    ensures { OnOk result (out.new.items ≡ out.old.items ++ flat_map unique_part uniques.now) }
{
    for unique in uniques {
        push_unique(out, unique)?;
    }
    Ok(())
}

fn push_unique(out: &mut Vec<u8>, unique: &UniqueKey) -> Result<(), AllocError>
    ensures { OnOk result (out.new.items ≡ out.old.items ++ unique_part unique.now) }
{
    out.extend_from_slice(b", UNIQUE KEY ")?;
    push_name(out, &unique.name)?;
    out.push(b' ')?;
    push_name_list(out, unique.columns.as_slice())
}

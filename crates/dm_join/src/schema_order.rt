ghost use Rattle.std.specs.Prelude.{◌≡◌, ◌||◌, is_some};
ghost use Rattle.std.specs.List.{list_any, list_all};
ghost use Rattle.dm_schema.specs.Fill.{fill_for_missing};
ghost use Rattle.dm_schema.specs.Names.{column_at, has_column};
ghost use Rattle.dm_schema.specs.Schemas.{same_unique};
ghost use Rattle.dm_join.specs.AtMost.{at_most, column_at_most, is_kept};

use dm_schema::{Column, Schema, UniqueKey, has_fill_for_missing, kind_at_most};

/// Whether each row of one schema can be kept as a row of another: the primary keys are the same, the higher schema has
/// each column of the lower one and can hold its values, fills those that the lower one lacks, and has no other unique
/// keys.
pub fn at_most(low: &Schema, high: &Schema) -> bool
    ensures { result ≡ at_most low.now high.now }
{
    *low.primary() == *high.primary()
        && keeps_columns(low, high)
        && fills_columns(low, high)
        && keeps_uniques(low, high)
}

/// Whether the higher schema can hold the values of each column of the lower one.
fn keeps_columns(low: &Schema, high: &Schema) -> bool
    ensures { result ≡ list_all (λ c. is_kept c (column_at high.now.columns c.name)) low.now.columns }
{
    low.columns().iter().all(|column| is_kept(column, high))
}

/// Whether the higher schema has a value for each of its columns that the lower one lacks.
fn fills_columns(low: &Schema, high: &Schema) -> bool
    ensures { result ≡ list_all (λ c. has_column low.now.columns c.name || is_some (fill_for_missing c)) high.now.columns }
{
    high.columns().iter().all(|column| has_column(low, column) || has_fill_for_missing(column))
}

/// Whether each unique key of the higher schema is one of the lower.
fn keeps_uniques(low: &Schema, high: &Schema) -> bool
    ensures { result ≡ list_all (λ k. list_any (same_unique k) low.now.uniques) high.now.uniques }
{
    high.uniques().iter().all(|key| has_unique(low, key))
}

/// Whether a column is at most the other schema's column of its name.
fn is_kept(low: &Column, schema: &Schema) -> bool
    ensures { result ≡ is_kept low.now (column_at schema.now.columns low.now.name) }
{
    match schema.column(&low.name) {
        Some(high) => column_at_most(low, high),
        None => false,
    }
}

fn column_at_most(low: &Column, high: &Column) -> bool
    ensures { result ≡ column_at_most low.now high.now }
{
    kind_at_most(low.kind, high.kind)
        && (!low.nullable || high.nullable)
        && low.default_rule == high.default_rule
}

/// Whether a schema has a column of this one's name.
pub(crate) fn has_column(schema: &Schema, like: &Column) -> bool
    ensures { result ≡ has_column schema.now.columns like.now.name }
{
    schema
        .columns()
        .iter()
        .any(|column| column.name == like.name)
}

/// Whether a schema has this very key.
pub(crate) fn has_unique(schema: &Schema, key: &UniqueKey) -> bool
    ensures { result ≡ list_any (same_unique key.now) schema.now.uniques }
{
    schema.uniques().iter().any(|other| *key == *other)
}

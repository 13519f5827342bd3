ghost use Rattle.std.specs.Prelude.{◌≡◌, ◌≤◌, IsTrue, IfOk, length};
ghost use Rattle.std.specs.List.{list_any, list_all};
ghost use Rattle.std.specs.Option.{option_copied};
ghost use Rattle.dm_schema.specs.Kinds.{is_column, is_key, is_kind};
ghost use Rattle.dm_schema.specs.Names.{column_at, has_column, same_name};
ghost use Rattle.dm_schema.specs.Schemas.{schema_of, joined_schema_of, refusals, schema_equal, is_formed, all_columns, is_nullable_column, has_nullable, is_unfit_default, column_repeats, key_repeats, names_repeat, some_key_repeats_names};

use crate::fitting::fits;
use crate::named::in_name_order;
use crate::{Column, DefaultRule, SchemaFault, UniqueKey};
use dm_list::{Copied, Sequence};
use dm_value::{Name, Names};
use std::alloc::{AllocError, Global};
use std::marker::Model;

/// A table that is read has no more columns.
const MOST_COLUMNS: usize = 256;
/// A table has no more unique keys.
const MOST_UNIQUES: usize = 16;

/// The columns of a table, its primary key and its unique keys. The order of the columns matters for reading rows
/// alone.
#[derive(Debug, Drop)]
pub struct Schema {
    columns: Sequence<Column>,
    primary: Names,
    uniques: Sequence<UniqueKey>,
}

impl Model for Schema {
    ghost use Rattle.std.specs.Prelude.{IsTrue};
    ghost use Rattle.dm_schema.specs.Layout.{Layout};
    ghost use Rattle.dm_schema.specs.Schemas.{is_formed};

    ghost Value = { Layout };

    ghost view = { λ s. record { columns = s.columns; primary = s.primary; uniques = s.uniques } };

    ghost invariant = { λ s. IsTrue (is_formed (record { columns = s.columns; primary = s.primary; uniques = s.uniques })) };

    ghost inverse = { λ l. record { columns = l.columns; primary = l.primary; uniques = l.uniques } };
}

impl Schema {
    /// The schema of these columns and keys; at most 256 columns and 16 unique keys.
    pub fn new(
        columns: Vec<Column>,
        primary: Names,
        uniques: Vec<UniqueKey>,
    ) -> Result<Schema, SchemaFault>
        requires columns { IsTrue (list_all is_column columns.items) }
        requires uniques { IsTrue (list_all is_key uniques.items) }
        ensures { result ≡ schema_of columns.items primary uniques.items }
    {
        if columns.len() > MOST_COLUMNS {
            return Err(SchemaFault::TooMany);
        }
        Schema::joined(columns, primary, uniques)
    }

    /// The schema of these columns and keys, however many columns there are: a join of schemas may have more than
    /// each of them.
    pub fn joined(
        columns: Vec<Column>,
        primary: Names,
        uniques: Vec<UniqueKey>,
    ) -> Result<Schema, SchemaFault>
        requires columns { IsTrue (list_all is_column columns.items) }
        requires uniques { IsTrue (list_all is_key uniques.items) }
        ensures { result ≡ joined_schema_of columns.items primary uniques.items }
    {
        if uniques.len() > MOST_UNIQUES {
            return Err(SchemaFault::TooMany);
        }
        if columns_repeat(&columns)
            || keys_repeat(&uniques)
            || names_repeat(primary.as_slice())
            || keys_repeat_names(&uniques)
        {
            return Err(SchemaFault::Duplicate);
        }
        if primary.is_empty() {
            return Err(SchemaFault::NoPrimary);
        }
        if !(all_columns(&columns, primary.as_slice()) && keys_stand(&columns, &uniques)) {
            return Err(SchemaFault::UnknownColumn);
        }
        if has_nullable(&columns, primary.as_slice()) {
            return Err(SchemaFault::NullablePrimary);
        }
        if has_unfit_default(&columns) {
            return Err(SchemaFault::DefaultUnfit);
        }
        Ok(Schema {
            columns: Sequence::new(columns),
            primary,
            uniques: Sequence::new(uniques),
        })
    }

    pub fn columns(&self) -> &[Column]
        ensures columns { result.now ≡ self.now.columns }
        ensures formed { IsTrue (is_formed self.now) }
    {
        self.columns.as_slice()
    }

    pub fn primary(&self) -> &Names
        ensures { result.now ≡ self.now.primary }
    {
        &self.primary
    }

    pub fn uniques(&self) -> &[UniqueKey]
        ensures uniques { result.now ≡ self.now.uniques }
        ensures few { length result.now ≤ 16 }
        ensures formed { IsTrue (is_formed self.now) }
    {
        self.uniques.as_slice()
    }

    /// Whether two schemas are equal, the order of their columns and unique keys apart.
    pub fn equals(&self, alloc: Global, other: &Schema) -> Result<bool, AllocError>
        ensures { IfOk result (λ equal. equal ≡ schema_equal self.now other.now) }
    {
        let columns = in_name_order(alloc, self.columns())?;
        let other_columns = in_name_order(alloc, other.columns())?;
        let uniques = in_name_order(alloc, self.uniques())?;
        let other_uniques = in_name_order(alloc, other.uniques())?;
        Ok(columns == other_columns && self.primary == other.primary && uniques == other_uniques)
    }

    /// The column of a name, if there is one.
    pub fn column(&self, name: &Name) -> Option<&Column>
        ensures { option_copied result ≡ column_at self.now.columns name.now }
    {
        self.columns
            .as_slice()
            .iter()
            .find(|column| column.name == *name)
    }
}

impl Copied for Schema {
    fn copy(&self, alloc: Global) -> Result<Schema, AllocError> {
        Ok(Schema {
            columns: self.columns.copy(alloc)?,
            primary: self.primary.copy(alloc)?,
            uniques: self.uniques.copy(alloc)?,
        })
    }
}

/// Whether a column has the name.
pub fn has_column(columns: &[Column], name: &Name) -> bool
    ensures { result ≡ has_column columns.now name.now }
{
    columns.iter().any(|column| column.name == *name)
}

/// Whether each name is a column's.
pub fn all_columns(columns: &[Column], names: &[Name]) -> bool
    ensures { result ≡ all_columns columns.now names.now }
{
    names.iter().all(|name| has_column(columns, name))
}

fn keys_stand(columns: &[Column], keys: &[UniqueKey]) -> bool
    ensures { result ≡ list_all (λ k. all_columns columns.now k.columns) keys.now }
{
    keys.iter()
        .all(|key| all_columns(columns, key.columns.as_slice()))
}

fn has_name(names: &[Name], name: &Name) -> bool
    ensures { result ≡ list_any (λ n. same_name name.now n) names.now }
{
    names.iter().any(|other| *name == *other)
}

fn is_nullable_column(names: &[Name], column: &Column) -> bool
    ensures { result ≡ is_nullable_column names.now column.now }
{
    column.nullable && has_name(names, &column.name)
}

fn has_nullable(columns: &[Column], names: &[Name]) -> bool
    ensures { result ≡ has_nullable columns.now names.now }
{
    columns
        .iter()
        .any(|column| is_nullable_column(names, column))
}

fn is_unfit_default(column: &Column) -> bool
    requires { IsTrue (is_kind column.now.kind) }
    ensures { result ≡ is_unfit_default column.now }
{
    match &column.default_rule {
        DefaultRule::Nothing | DefaultRule::Now => false,
        DefaultRule::Const(value) => !fits(value, column),
    }
}

fn has_unfit_default(columns: &[Column]) -> bool
    requires { IsTrue (list_all is_column columns.now) }
    ensures { result ≡ list_any is_unfit_default columns.now }
{
    match columns {
        [] => false,
        [first, rest @ ..] => is_unfit_default(first) || has_unfit_default(rest),
    }
}

fn has_column_like(columns: &[Column], like: &Column) -> bool
    ensures { result ≡ list_any (λ c. same_name like.now.name c.name) columns.now }
{
    columns.iter().any(|column| like.name == column.name)
}

fn columns_repeat(columns: &[Column]) -> bool
    ensures { result ≡ column_repeats columns.now }
{
    match columns {
        [] => false,
        [first, rest @ ..] => has_column_like(rest, first) || columns_repeat(rest),
    }
}

fn has_key_like(keys: &[UniqueKey], like: &UniqueKey) -> bool
    ensures { result ≡ list_any (λ k. same_name like.now.name k.name) keys.now }
{
    keys.iter().any(|key| like.name == key.name)
}

fn keys_repeat(keys: &[UniqueKey]) -> bool
    ensures { result ≡ key_repeats keys.now }
{
    match keys {
        [] => false,
        [first, rest @ ..] => has_key_like(rest, first) || keys_repeat(rest),
    }
}

fn names_repeat(names: &[Name]) -> bool
    ensures { result ≡ names_repeat names.now }
{
    match names {
        [] => false,
        [first, rest @ ..] => has_name(rest, first) || names_repeat(rest),
    }
}

fn keys_repeat_names(keys: &[UniqueKey]) -> bool
    ensures { result ≡ some_key_repeats_names keys.now }
{
    keys.iter().any(|key| names_repeat(key.columns.as_slice()))
}

ghost use Rattle.std.specs.Prelude.{◌≡◌, IsTrue};
ghost use Rattle.dm_schema.specs.Kinds.{is_column, is_integer_size, is_key, is_kind, is_rule};
ghost use Rattle.dm_schema.specs.Schemas.{is_unfit_default};
ghost use Rattle.dm_stmt.specs.Records.{is_whole_column};

use dm_schema::{Column, DefaultRule, Kind, UniqueKey, fits, is_folded};
use dm_value::Value;

/// Whether a schema can be made of a unique key.
pub(crate) fn is_key(key: &UniqueKey) -> bool
    ensures { result ≡ is_key key.now }
{
    is_folded(key.name.as_slice()) && !key.columns.as_slice().is_empty()
}

/// Whether a schema can be made of a column, with its default.
pub(crate) fn is_whole_column(column: &Column) -> bool
    ensures { result ≡ is_whole_column column.now }
{
    is_column(column) && !is_unfit_default(column)
}

fn is_column(column: &Column) -> bool
    ensures { result ≡ is_column column.now }
{
    is_folded(column.name.as_slice()) && is_kind(column.kind) && is_rule(&column.default_rule)
}

/// Whether the numbers of a kind are in range.
fn is_kind(kind: Kind) -> bool
    ensures { result ≡ is_kind kind }
{
    match kind {
        Kind::Signed(size) | Kind::Unsigned(size) => is_integer_size(size),
        Kind::Decimal(precision, scale) => {
            1 <= precision && precision <= 38 && scale <= precision
        }
        Kind::Char(length) | Kind::Binary(length) => length <= 255,
        Kind::Text(prefix) | Kind::Blob(prefix) => 1 <= prefix && prefix <= 4,
        Kind::Datetime(digits) | Kind::Timestamp(digits) => digits <= 6,
        Kind::Varchar(_) | Kind::Varbinary(_) | Kind::Date | Kind::Year => true,
    }
}

/// Whether integers have so many bytes.
fn is_integer_size(size: u8) -> bool
    ensures { result ≡ is_integer_size size }
{
    size == 1 || size == 2 || size == 3 || size == 4 || size == 8
}

/// Whether a default isn't a constant NULL.
fn is_rule(rule: &DefaultRule) -> bool
    ensures { result ≡ is_rule rule.now }
{
    !matches!(rule, DefaultRule::Const(Value::Null))
}

/// Whether a column has a constant default that doesn't fit it.
fn is_unfit_default(column: &Column) -> bool
    requires { IsTrue (is_kind column.now.kind) }
    ensures { result ≡ is_unfit_default column.now }
{
    match &column.default_rule {
        DefaultRule::Nothing | DefaultRule::Now => false,
        DefaultRule::Const(value) => !fits(value, column),
    }
}

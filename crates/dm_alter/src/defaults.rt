ghost use Rattle.std.specs.Prelude.{◌≡◌, IfOk, IfSome, IsTrue};
ghost use Rattle.std.specs.List.{list_all};
ghost use Rattle.std.specs.Option.{option_copied};
ghost use Rattle.dm_schema.specs.Names.{column_at};
ghost use Rattle.dm_schema.specs.Kinds.{is_kind, is_column};
ghost use Rattle.dm_schema.specs.Effect.{rule_by, rule_of, with_rule, with_default};

use dm_schema::{Column, Copied, DefaultRule, Kind, Name, Schema, Value};
use std::alloc::{AllocError, Global};

/// What reads the text of a default, as `SET DEFAULT` has it.
pub trait DefaultReading {
    ghost use Rattle.std.specs.Prelude.{List, ℕ, Option};
    ghost use Rattle.dm_value.specs.declared.value.Value.{Value};
    ghost use Rattle.dm_schema.specs.declared.column.Kind.{Kind};

    ghost reads: { Self → Kind → List ℕ → Option Value };

    /// The value of a text for a column of a kind, NULL among them; `None` where it has none.
    fn value(&self, alloc: Global, kind: Kind, text: &[u8]) -> Result<Option<Value>, AllocError>
        requires { IsTrue (is_kind kind) }
        ensures { IfOk result (λ value. value ≡ reads self.now kind text.now) };
}

/// The rule that a value gives a column that is nullable or not.
fn rule_by(nullable: bool, value: Option<Value>) -> Option<DefaultRule>
    ensures { result ≡ rule_by nullable value }
{
    match value? {
        Value::Null if nullable => Some(DefaultRule::Nothing),
        Value::Null => None,
        value => Some(DefaultRule::Const(value)),
    }
}

/// The rule that a text gives a column. The empty text takes the default away.
fn rule_of<R: DefaultReading>(
    alloc: Global,
    reading: &R,
    column: &Column,
    text: &[u8],
) -> Result<Option<DefaultRule>, AllocError>
    requires { IsTrue (is_column column.now) }
    ensures { IfOk result (λ rule. rule ≡ rule_of (R.reads reading.now) column.now text.now) }
{
    if text.is_empty() {
        return Ok(Some(DefaultRule::Nothing));
    }
    let value = reading.value(alloc, column.kind, text)?;
    Ok(rule_by(column.nullable, value))
}

fn with_rule(alloc: Global, column: &Column, rule: DefaultRule) -> Result<Column, AllocError>
    ensures { IfOk result (λ changed. changed ≡ with_rule column.now rule) }
{
    Ok(Column {
        name: column.name.copy(alloc)?,
        kind: column.kind,
        nullable: column.nullable,
        default_rule: rule,
    })
}

/// The column of a name with the default that a text gives it; `None` where there is no column or no such default.
pub fn with_default<R: DefaultReading>(
    alloc: Global,
    reading: &R,
    schema: &Schema,
    name: &Name,
    text: &[u8],
) -> Result<Option<Column>, AllocError>
    ensures { IfOk result (λ column.
        column ≡ with_default (R.reads reading.now) schema.now.columns name.now text.now) }
{
    let Some(column) = column_at(schema.columns(), name) else {
        return Ok(None);
    };
    match rule_of(alloc, reading, column, text)? {
        Some(rule) => Ok(Some(with_rule(alloc, column, rule)?)),
        None => Ok(None),
    }
}

/// The column of a name.
fn column_at<'a>(columns: &'a [Column], name: &Name) -> Option<&'a Column>
    requires { IsTrue (list_all is_column columns.now) }
    ensures found { option_copied result ≡ column_at columns.now name.now }
    ensures formed { IfSome result (λ column. IsTrue (is_column column.now)) }
{
    columns.iter().find(|column| column.name == *name)
}

ghost use Rattle.std.specs.Prelude.{◌≡◌, IfOk, IsTrue};
ghost use Rattle.std.specs.List.{list_all};
ghost use Rattle.dm_schema.specs.Kinds.{is_column, is_folded};
ghost use Rattle.dm_schema.specs.Effect.{is_change};

use crate::{DefaultReading, effect, effect_joined};
use dm_schema::{
    Bytes, Change, Column, DefaultRule, EffectFault, Kind, Name, Names, Schema, Spot, Value,
};
use std::alloc::{AllocError, Global};
use std::test::Fail;

/// Reads texts of one byte as 7, and no others.
struct Sevens;

impl DefaultReading for Sevens {
    ghost use Rattle.std.specs.Prelude.{pos, ◌==◌, length, Some, None, if◌then◌else◌};
    ghost use Rattle.dm_value.specs.declared.value.Value.TheVariants.{Int};

    ghost reads = { λ _ kind text. if length text == 1 then Some (Int (pos 7)) else None };

    fn value(&self, _alloc: Global, _kind: Kind, text: &[u8]) -> Result<Option<Value>, AllocError> {
        Ok((text.len() == 1).then_some(Value::Int(7)))
    }
}

fn name(alloc: Global, text: &str) -> Result<Name, AllocError>
    ensures { IfOk result (λ name. name ≡ text.now) }
{
    Ok(Name::new(text.as_bytes().to_vec(alloc)?))
}

fn int(alloc: Global, text: &str, nullable: bool) -> Result<Column, AllocError>
    requires { IsTrue (is_folded text.now) }
    ensures { IfOk result (λ column. IsTrue (is_column column)) }
{
    Ok(Column {
        name: name(alloc, text)?,
        kind: Kind::Signed(4),
        nullable,
        default_rule: DefaultRule::Nothing,
    })
}

fn columns(alloc: Global) -> Result<Vec<Column>, AllocError>
    ensures { IfOk result (λ columns. IsTrue (list_all is_column columns.items)) }
{
    let id = int(alloc, "id", false)?;
    let v = int(alloc, "v", true)?;
    Ok(vec![in alloc; id, v]?)
}

fn primary(alloc: Global) -> Result<Names, AllocError> {
    Ok(Names::new(vec![in alloc; name(alloc, "id")?]?))
}

/// `id` INT NOT NULL PRIMARY KEY, `v` INT.
fn table(alloc: Global) -> Result<Schema, EffectFault> {
    Schema::new(columns(alloc)?, primary(alloc)?, Vec::new(alloc)).map_err(EffectFault::Made)
}

/// SET DEFAULT of `v` to a text.
fn set_default(alloc: Global, text: &str) -> Result<Change, AllocError>
    ensures { IfOk result (λ change. IsTrue (is_change change)) }
{
    Ok(Change::SetDefault {
        name: name(alloc, "v")?,
        text: Bytes::new(text.as_bytes().to_vec(alloc)?),
    })
}

fn rule_of(schema: &Schema, name: &Name) -> Option<DefaultRule> {
    match schema.column(name)?.default_rule {
        DefaultRule::Const(Value::Int(number)) => Some(DefaultRule::Const(Value::Int(number))),
        DefaultRule::Nothing => Some(DefaultRule::Nothing),
        _ => None,
    }
}

#[test]
fn sets_a_default(rt: HostRuntime) -> Result<(), Fail> {
    let alloc = rt.alloc();
    let before = table(alloc)?;
    let change = set_default(alloc, "7")?;
    let after = effect(alloc, &Sevens, &before, &[change])?;
    let rule = rule_of(&after, &name(alloc, "v")?);
    assert_eq!(rt; rule, Some(DefaultRule::Const(Value::Int(7))));
    Ok(())
}

#[test]
fn refuses_a_default_without_a_value(rt: HostRuntime) -> Result<(), Fail> {
    let alloc = rt.alloc();
    let before = table(alloc)?;
    let change = set_default(alloc, "seven")?;
    assert!(rt; effect_joined(alloc, &Sevens, &before, &[change]).is_err());
    Ok(())
}

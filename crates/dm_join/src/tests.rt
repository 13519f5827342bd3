ghost use Rattle.std.specs.Prelude.{◌≡◌, IsTrue, IfOk, [], ◌∷◌};
ghost use Rattle.dm_schema.specs.Kinds.{is_column, is_folded, is_kind};

use crate::{JoinCause, NoJoin, alteration, at_most, join};
use dm_schema::{Change, Column, DefaultRule, Kind, Schema, Spot};
use dm_value::{Name, Names};
use std::alloc::{AllocError, Global};
use std::test::Fail;

fn name(alloc: Global, text: u8) -> Result<Name, AllocError>
    ensures { IfOk result (λ name. name ≡ text ∷ []) }
{
    Ok(Name::new(vec![in alloc; text]?))
}

/// A column without a default, with a name of one letter.
fn column(alloc: Global, text: u8, kind: Kind, nullable: bool) -> Result<Column, AllocError>
    requires folded { IsTrue (is_folded (text ∷ [])) }
    requires kind { IsTrue (is_kind kind) }
    ensures { IfOk result (λ column. IsTrue (is_column column)) }
{
    Ok(Column {
        name: name(alloc, text)?,
        kind,
        nullable,
        default_rule: DefaultRule::Nothing,
    })
}

/// A table of a key `i` and a column `c`.
fn table(alloc: Global, kind: Kind, nullable: bool) -> Result<Schema, Fail>
    requires { IsTrue (is_kind kind) }
    ensures { IfOk result (λ table. table.primary ≡ (105 ∷ []) ∷ []) }
{
    let key = column(alloc, b'i', Kind::Signed(4), false)?;
    let other = column(alloc, b'c', kind, nullable)?;
    let primary = Names::new(vec![in alloc; name(alloc, b'i')?]?);
    let columns = vec![in alloc; key, other]?;
    let Ok(table) = Schema::new(columns, primary, Vec::new(alloc)) else {
        return Err(Fail::from("no schema"));
    };
    Ok(table)
}

#[test]
fn joins_two(rt: HostRuntime) -> Result<(), Fail> {
    let alloc = rt.alloc();
    let low = table(alloc, Kind::Signed(4), true)?;
    let high = table(alloc, Kind::Signed(8), false)?;
    let schemas = vec![in alloc; low, high]?;
    let joined = join(alloc, &schemas).ok().ok_or("no join")?;
    let want = table(alloc, Kind::Signed(8), true)?;
    assert!(rt; joined.equals(alloc, &want)?);
    Ok(())
}

#[test]
fn tells_why_there_is_none(rt: HostRuntime) -> Result<(), Fail> {
    let alloc = rt.alloc();
    let signed = table(alloc, Kind::Signed(4), false)?;
    let unsigned = table(alloc, Kind::Unsigned(4), false)?;
    let schemas = vec![in alloc; signed, unsigned]?;
    let fault = join(alloc, &schemas).err().ok_or("a join")?;
    let column = name(alloc, b'c')?;
    let want = NoJoin::At {
        column,
        cause: JoinCause::Family,
    };
    assert_eq!(rt; fault, want);
    Ok(())
}

#[test]
fn orders_two(rt: HostRuntime) -> Result<(), Fail> {
    let alloc = rt.alloc();
    let low = table(alloc, Kind::Signed(4), false)?;
    let high = table(alloc, Kind::Signed(8), true)?;
    assert!(rt; at_most(&low, &high));
    assert!(rt; !at_most(&high, &low));
    Ok(())
}

#[test]
fn alters_a_column(rt: HostRuntime) -> Result<(), Fail> {
    let alloc = rt.alloc();
    let old = table(alloc, Kind::Signed(4), false)?;
    let new = table(alloc, Kind::Signed(8), true)?;
    let changes = alteration(alloc, &old, &new)?.into_vec();
    assert_eq!(rt; changes.len(), 1);
    let Change::Modify {
        column,
        spot,
        null_written,
    } = &changes[0]
    else {
        assert!(rt; false, "a column isn't modified");
        return Ok(());
    };
    assert_eq!(rt; column.kind, Kind::Signed(8));
    assert!(rt; column.nullable && *null_written);
    assert_eq!(rt; *spot, Spot::Keep);
    Ok(())
}

/// A table of a key `i` alone.
fn key_alone(alloc: Global) -> Result<Schema, Fail> {
    let key = column(alloc, b'i', Kind::Signed(4), false)?;
    let primary = Names::new(vec![in alloc; name(alloc, b'i')?]?);
    let columns = vec![in alloc; key]?;
    let Ok(table) = Schema::new(columns, primary, Vec::new(alloc)) else {
        return Err(Fail::from("no schema"));
    };
    Ok(table)
}

/// One of three schemas: `c` INT NULL, `c` BIGINT NOT NULL, and without `c`.
fn one_of_three(alloc: Global, letter: u8) -> Result<Schema, Fail> {
    match letter {
        b'a' => table(alloc, Kind::Signed(4), true),
        b'b' => table(alloc, Kind::Signed(8), false),
        _ => key_alone(alloc),
    }
}

/// The join of the three in an order.
fn joined_in_order(alloc: Global, order: &str) -> Result<Schema, Fail> {
    let [first, second, third] = order.as_bytes() else {
        return Err(Fail::from("no order"));
    };
    let first = one_of_three(alloc, *first)?;
    let second = one_of_three(alloc, *second)?;
    let third = one_of_three(alloc, *third)?;
    let schemas = vec![in alloc; first, second, third]?;
    let Ok(joined) = join(alloc, &schemas) else {
        return Err(Fail::from("no join"));
    };
    Ok(joined)
}

/// Whether their join in an order has `c` BIGINT NULL.
fn is_wide(alloc: Global, order: &str) -> Result<bool, Fail> {
    let joined = joined_in_order(alloc, order)?;
    let want = table(alloc, Kind::Signed(8), true)?;
    Ok(joined.equals(alloc, &want)?)
}

#[test]
fn joins_in_any_order(rt: HostRuntime) -> Result<(), Fail> {
    let alloc = rt.alloc();
    for order in "abc\nacb\nbac\nbca\ncab\ncba".lines() {
        let wide = is_wide(alloc, order)?;
        assert!(rt; wide, "in the order {order}");
    }
    Ok(())
}
